// The answer without a time. It heeds neither the missing flag nor the manifest blocks.

ghost use Rattle.std.specs.Prelude.{◌≡◌, ℕ, ◌<◌, length};
ghost use Rattle.definitions.specs.Lists.{any};
ghost use Rattle.laws.specs.list.Every.{Every};
ghost use Rattle.value.specs.Untimed.{has_samples, untimed_of};

use definitions::{Missing, ValueState};
use sdf::part::{clip_begin, clip_end};

// One of these clips has samples, blocks among them.
fn any_samples(clips: &[u64], ends: &[u64]) -> bool
    requires { Every (λ (c : ℕ). c < length ends.now) clips.now }
    ensures { result ≡ any (has_samples ends.now) clips.now }
{
    for clip in clips {
        if clip_begin(ends, *clip) < clip_end(ends, *clip) {
            return true;
        }
    }
    false
}

// By the clips that the starts name: absent without any; present where one has samples or the manifest default is a value; else blocked.
pub fn untimed_answer_in_set(clips: &[u64], m: Missing, ends: &[u64]) -> ValueState
    requires { Every (λ (c : ℕ). c < length ends.now) clips.now }
    ensures { result ≡ untimed_of clips.now m ends.now }
{
    if clips.is_empty() {
        return ValueState::Absent;
    }
    if m.default.mark == 0 || any_samples(clips, ends) {
        return ValueState::Present;
    }
    ValueState::Blocked
}

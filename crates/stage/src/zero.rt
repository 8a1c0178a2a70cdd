// How the stage sample time zero is written: of equal times the first in the order of `total_cmp` stays, so it is -0.0 if that is gathered anywhere.

ghost use Rattle.std.specs.Prelude.{◌≡◌};
ghost use Rattle.std.specs.List.{list_any};
ghost use Rattle.stage.specs.First.{zero_of, with_zero};
ghost use Rattle.stage.specs.Zeros.{is_minus_zero, any_minus_zero, samples_at_zero, minus_gathered, Sampled};

use sdf::part::{clip_begin, clip_end};

// The number of -0.0 in that order, which no other double has.
const MINUS_ZERO: u64 = 0x7fff_ffff_ffff_ffff;

fn has_minus_zero(xs: &[f64]) -> bool
    ensures { result ≡ list_any is_minus_zero xs.now }
{
    xs.iter().any(|x| gf::total_key(*x) == MINUS_ZERO)
}

// Whether the clip that is active at zero has a sample at -0.0.
fn is_sampled(starts: &[f64], clips: &[u64], times: &[f64], ends: &[u64]) -> bool
    requires { Sampled starts.now clips.now times.now ends.now }
    ensures { result ≡ any_minus_zero (samples_at_zero starts.now clips.now times.now ends.now) }
{
    let p = lists::last_at_most(starts, -0.0);
    let clip = clips[p];
    let begin = clip_begin(ends, clip);
    let end = clip_end(ends, clip);
    has_minus_zero(&times[begin..end])
}

// Whether -0.0 is gathered. An inverse time is -0.0 only if its first knot is, so the inverse times need no look; with no knots they are the samples.
fn is_minus(starts: &[f64], clips: &[u64], xs: &[f64], times: &[f64], ends: &[u64]) -> bool
    requires { Sampled starts.now clips.now times.now ends.now }
    ensures { result ≡ minus_gathered starts.now clips.now xs.now times.now ends.now }
{
    has_minus_zero(starts)
        || has_minus_zero(xs)
        || (xs.is_empty() && is_sampled(starts, clips, times, ends))
}

// A stage sample time as it is written.
pub fn with_zero(
    starts: &[f64],
    clips: &[u64],
    xs: &[f64],
    times: &[f64],
    ends: &[u64],
    time: Option<f64>,
) -> Option<f64>
    requires { Sampled starts.now clips.now times.now ends.now }
    ensures { result ≡ with_zero (zero_of (minus_gathered starts.now clips.now xs.now times.now ends.now)) time }
{
    match time {
        Some(h) if h == 0.0 => {
            if is_minus(starts, clips, xs, times, ends) {
                Some(-0.0)
            } else {
                Some(0.0)
            }
        }
        _ => time,
    }
}

// The value at a key, as a track holds it.
ghost use Rattle.std.specs.Prelude.{length, ◌≡◌, ◌≤◌};
ghost use Rattle.gf.specs.Doubles as Key;
ghost use Rattle.laws.specs.cell.Keys.{entry_at_key};
ghost use Rattle.laws.specs.cell.Lent.{AcceptedLists, set_of, samples_of};
ghost use Rattle.cell.specs.step.Entries.{entry_is};

use cell::step::entry::{Entry, entry_of};
use definitions::{Missing, StageTime};

// The entry at the double with the key k.
pub fn entry_at(
    starts: &[f64],
    clips: &[u64],
    xs: &[f64],
    ys: &[f64],
    blocks: &[f64],
    m: Missing,
    times: &[f64],
    values: &[f64],
    marks: &[u8],
    ends: &[u64],
    k: u64,
) -> Entry
    requires accepted_lists { AcceptedLists starts.now clips.now xs.now ys.now blocks.now m times.now values.now marks.now ends.now }
    requires le_k { (Key.least ≤ k) × (k ≤ Key.most) }
    ensures { entry_is result ≡ entry_at_key (set_of (length ends.now) starts.now clips.now xs.now ys.now blocks.now m) (samples_of times.now values.now marks.now ends.now) k }
{
    let t = gf::of_key(k);
    entry_of(value::value::value_in_set(
        starts,
        clips,
        xs,
        ys,
        blocks,
        m,
        times,
        values,
        marks,
        ends,
        StageTime(t),
    ))
}

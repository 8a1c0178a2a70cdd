// The changes where a clip's samples are read along a line. Only its slices are handed on, so that a pass over them stays
// in registers.

#![tactic(auto)]

// The changes over a run of samples that are passed in one segment.
pub mod inside;
// One change offered to the outputs, and where a walk stands.
pub mod begin;
pub mod walk;

ghost use Rattle.std.specs.Prelude.{◌≡◌, ◌≤◌, ◌<◌, length};
ghost use Rattle.gf.specs.Doubles as Key;
ghost use Rattle.definitions.specs.Moments.{outputs};
ghost use Rattle.laws.specs.list.Places.{Ascending};
ghost use Rattle.laws.specs.cell.Keys.{Keys};
ghost use Rattle.cell.specs.step.Lines.{place_on};
ghost use Rattle.cell.specs.step.Entries.{entry_is};
ghost use Rattle.run.specs.Readings.{Reads, LeftOnce, entry_at, reading_at};
ghost use Rattle.run.specs.Walks.{Room, Walked};

use cell::step::entry::{Entry, entry_of};
use cell::step::line::{Line, along, place_on};
use cell::step::next_step;
use definitions::Answer;
use lists::near::last_at_most_near;
use walk::{Went, offer};

// The entry of the sample at a place.
pub fn entry_of_sample(vs: &[f64], ms: &[u8], place: usize) -> Entry
    requires place_in_bounds { place < length vs.now }
    requires place_in_bounds_2 { place < length ms.now }
    ensures { entry_is result ≡ entry_at vs.now ms.now place }
{
    if ms[place] == 0 {
        return entry_of(Answer::Value(vs[place]));
    }
    entry_of(Answer::Blocked)
}

// The place of the sample that is read at the key k, which is beside another.
fn place_beside(ts: &[f64], line: Line, k: u64, place: usize) -> usize
    requires ascending { Ascending ts.now }
    requires le_k { (Key.least ≤ k) × (k ≤ Key.most) }
    ensures { result ≡ place_on ts.now line k }
{
    last_at_most_near(ts, along(line, gf::of_key(k)), place)
}

// Writes the changes above k and up to hi from slot n on, while there is room.
pub fn fill_changes(
    ts: &[f64],
    vs: &[f64],
    ms: &[u8],
    line: Line,
    k: u64,
    hi: u64,
    room: usize,
    n: usize,
    outtimes: &mut [f64],
    outvalues: &mut [f64],
    outmarks: &mut [u8],
) -> Went
    requires reads { Reads ts.now vs.now ms.now }
    requires keys { Keys k hi }
    requires left_once { LeftOnce (place_on ts.now line) k hi }
    requires room { Room room n (outputs outtimes.old outvalues.old outmarks.old) }
    ensures { Walked (reading_at ts.now vs.now ms.now line) k hi room n (outputs outtimes.old outvalues.old outmarks.old) (outputs outtimes.new outvalues.new outmarks.new) result }
{
    let top = along(line, gf::of_key(hi));
    let mut at = k;
    let mut place = place_on(ts, line, k);
    let mut last = entry_of_sample(vs, ms, place);
    let mut count = n;
    loop {
        let Some(step) = next_step(ts, line, place, top, at, hi) else {
            return Went {
                key: hi,
                last,
                count,
                done: true,
            };
        };
        let next = place_beside(ts, line, step, place);
        let entry = entry_of_sample(vs, ms, next);
        let slot = offer(
            entry, last, step, room, count, outtimes, outvalues, outmarks,
        );
        if room < slot {
            return Went {
                key: at,
                last,
                count,
                done: false,
            };
        }
        at = step;
        place = next;
        last = entry;
        count = slot;
    }
}

// The changes over a run of samples that are passed in one segment of knots, where the value is held from the inverse time that was passed last.
// Only the clip's slices are handed on, so that a pass over them stays in registers.
ghost use Rattle.std.specs.Prelude.{◌≡◌, ◌≤◌, ◌<◌, length};
ghost use Rattle.gf.specs.Doubles as Key;
ghost use Rattle.definitions.specs.Moments.{outputs};
ghost use Rattle.laws.specs.list.Places.{Ascending};
ghost use Rattle.window.specs.SoundSegments.{SoundSegment};
ghost use Rattle.cell.specs.step.Entries.{entry_is};
ghost use Rattle.run.specs.Readings.{Reads, reading_at};
ghost use Rattle.run.specs.Runs.{Spanned, PassingOn, PlaceInRun, SampleIs, NextFromPlace, WalkedOn};
ghost use Rattle.run.specs.Walks.{Room};

use crate::entry_of_sample;
use crate::walk::{Went, offer};
use cell::step::entry::Entry;
use cell::step::line::{Line, along};
use definitions::Segment;
use lists::near::last_at_most_near;
use lists::segment::stage_time;
use window::crossing::crossing;

// The key of the next inverse time, the place of its sample, and the place behind it.
#[derive(Clone, Copy)]
pub struct NextInRun {
    pub key: u64,
    pub sample: usize,
    pub behind: usize,
}

// The entry that is read along the line at the key k. Its place is beside the hint.
fn entry_along(cs: &[f64], vs: &[f64], ms: &[u8], line: Line, k: u64, hint: usize) -> Entry
    requires reads { Reads cs.now vs.now ms.now }
    requires le_k { (Key.least ≤ k) × (k ≤ Key.most) }
    ensures { entry_is result ≡ reading_at cs.now vs.now ms.now line k }
{
    let place = last_at_most_near(cs, along(line, gf::of_key(k)), hint);
    entry_of_sample(vs, ms, place)
}

// The inverse time of the sample at i, where it is not above hi; p is the place behind it.
fn sample_in_run(cs: &[f64], s: Segment, i: usize, p: usize, hi: u64) -> Option<NextInRun>
    requires sound_segment_1 { SoundSegment (s.a, s.b) }
    requires sound_segment_2 { Ascending cs.now }
    requires i_in_bounds_1 { i < length cs.now }
    requires i_in_bounds_2 { Spanned cs.now (s.a, s.b) i }
    ensures { SampleIs cs.now (s.a, s.b) i p hi result }
{
    let key = gf::key(stage_time(s, cs[i]));
    if hi < key {
        return None;
    }
    Some(NextInRun {
        key,
        sample: i,
        behind: p,
    })
}

// The next inverse time from the place n among the samples on: they are passed upwards where the segment rises, downwards where it falls.
fn next_in_run(cs: &[f64], s: Segment, n: usize, hi: u64) -> Option<NextInRun>
    requires sound_segment_1 { SoundSegment (s.a, s.b) }
    requires sound_segment_2 { Ascending cs.now }
    requires place_in_run { PlaceInRun cs.now (s.a, s.b) n }
    ensures { NextFromPlace cs.now (s.a, s.b) n hi result }
{
    if s.a.y < s.b.y {
        if n < cs.len() && cs[n] <= s.b.y {
            return sample_in_run(cs, s, n, n + 1, hi);
        }
    } else if s.b.y < s.a.y && 0 < n && s.b.y <= cs[n - 1] {
        return sample_in_run(cs, s, n - 1, n - 1, hi);
    }
    None
}

// Writes the changes above k and up to hi from slot `slot` on, while there is room, where `last` is read at k. The hint n is for the place of k.
pub fn fill_run(
    cs: &[f64],
    vs: &[f64],
    ms: &[u8],
    s: Segment,
    last: Entry,
    n: usize,
    k: u64,
    hi: u64,
    room: usize,
    slot: usize,
    outtimes: &mut [f64],
    outvalues: &mut [f64],
    outmarks: &mut [u8],
) -> Went
    requires passing_on { PassingOn cs.now vs.now ms.now (s.a, s.b) (entry_is last) k hi }
    requires room { Room room slot (outputs outtimes.old outvalues.old outmarks.old) }
    ensures { WalkedOn cs.now vs.now ms.now (s.a, s.b) (entry_is last) k hi room slot (outputs outtimes.old outvalues.old outmarks.old) (outputs outtimes.new outvalues.new outmarks.new) result }
{
    let line = Line::Segment(s);
    let mut at = k;
    let mut place = crossing(cs, s.a.x, s.a.y, s.b.x, s.b.y, gf::of_key(k), n);
    let mut held = last;
    let mut count = slot;
    loop {
        let Some(next) = next_in_run(cs, s, place, hi) else {
            return Went {
                key: hi,
                last: held,
                count,
                done: true,
            };
        };
        let entry = entry_along(cs, vs, ms, line, next.key, next.sample);
        let behind = offer(
            entry, held, next.key, room, count, outtimes, outvalues, outmarks,
        );
        if room < behind {
            return Went {
                key: at,
                last: held,
                count,
                done: false,
            };
        }
        at = next.key;
        place = next.behind;
        held = entry;
        count = behind;
    }
}

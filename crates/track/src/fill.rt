// The walk over the changes of the value. It stops when its outputs are full and can go on later.
ghost use Rattle.std.specs.Prelude.{◌≡◌, min};
ghost use Rattle.gf.specs.Doubles as Key;
ghost use Rattle.definitions.specs.Moments.{outputs};
ghost use Rattle.laws.specs.cell.Lent.{AcceptedLists};
ghost use Rattle.window.specs.search.Latest.{LatestOf};
ghost use Rattle.track.specs.Fills.{CursorIs, FillIs};

use crate::entry::entry_at;
use crate::span::fill::fill_in;
use crate::span::span_at;
use cell::place::{WindowPlace, no_place};
use cell::step::entry::Entry;
use definitions::Missing;
use gf::LEAST;
use run::walk::offer;

// The key that a walk has reached, the entry there, and where its last search ended.
#[derive(Clone, Copy)]
pub struct Cursor {
    pub key: u64,
    pub last: Entry,
    pub place: WindowPlace,
}

// How many changes were written, where the walk stands, and whether there are no more. An Option would be no plainer: the others hold either way.
#[derive(Clone, Copy)]
pub struct Filled {
    pub count: usize,
    pub cursor: Cursor,
    pub done: bool,
}

// Where a walk over all changes begins: at the lowest finite double.
pub fn least_cursor(
    starts: &[f64],
    clips: &[u64],
    xs: &[f64],
    ys: &[f64],
    blocks: &[f64],
    m: Missing,
    times: &[f64],
    values: &[f64],
    marks: &[u8],
    ends: &[u64],
) -> Cursor
    requires { AcceptedLists starts.now clips.now xs.now ys.now blocks.now m times.now values.now marks.now ends.now }
    ensures { CursorIs starts.now clips.now xs.now ys.now blocks.now m times.now values.now marks.now ends.now Key.most result × (result.key ≡ Key.least) }
{
    let last = entry_at(
        starts, clips, xs, ys, blocks, m, times, values, marks, ends, LEAST,
    );
    Cursor {
        key: LEAST,
        last,
        place: no_place(starts),
    }
}

// The length of the shortest of three lists.
pub fn shortest(a: usize, b: usize, c: usize) -> usize
    ensures { result ≡ min a (min b c) }
{
    a.min(b.min(c))
}

// Writes the changes above the cursor's key and up to top, as many as the shortest output has slots.
pub fn fill(
    starts: &[f64],
    clips: &[u64],
    xs: &[f64],
    ys: &[f64],
    blocks: &[f64],
    m: Missing,
    times: &[f64],
    values: &[f64],
    marks: &[u8],
    ends: &[u64],
    latest: &[f64],
    from: Cursor,
    top: u64,
    outtimes: &mut [f64],
    outvalues: &mut [f64],
    outmarks: &mut [u8],
) -> Filled
    requires accepted_lists { AcceptedLists starts.now clips.now xs.now ys.now blocks.now m times.now values.now marks.now ends.now }
    requires latest_of { LatestOf xs.now ys.now latest.now }
    requires cursor_is { CursorIs starts.now clips.now xs.now ys.now blocks.now m times.now values.now marks.now ends.now top from }
    ensures { FillIs starts.now clips.now xs.now ys.now blocks.now m times.now values.now marks.now ends.now from.key top (outputs outtimes.old outvalues.old outmarks.old) (outputs outtimes.new outvalues.new outmarks.new) result }
{
    let room = shortest(outtimes.len(), outvalues.len(), outmarks.len());
    let mut at = from.key;
    let mut last = from.last;
    let mut place = from.place;
    let mut count: usize = 0;
    loop {
        if at == top {
            return Filled {
                count,
                cursor: Cursor {
                    key: at,
                    last,
                    place,
                },
                done: true,
            };
        }
        let k = at + 1;
        let step = span_at(
            starts, clips, xs, ys, blocks, m, times, values, marks, ends, latest, place, k, top,
        );
        let s = step.span;
        let here = s.here;
        let slot = offer(here, last, k, room, count, outtimes, outvalues, outmarks);
        if room < slot {
            return Filled {
                count,
                cursor: Cursor {
                    key: at,
                    last,
                    place,
                },
                done: false,
            };
        }
        let went = fill_in(
            times, values, marks, ends, s, k, room, slot, outtimes, outvalues, outmarks,
        );
        if !went.done {
            return Filled {
                count: went.count,
                cursor: Cursor {
                    key: went.key,
                    last: went.last,
                    place: step.place,
                },
                done: false,
            };
        }
        at = s.hi;
        last = went.last;
        place = step.place;
        count = went.count;
    }
}

// The changes of one span, written while there is room.
ghost use Rattle.definitions.specs.Moments.{outputs};
ghost use Rattle.laws.specs.cell.Keys.{Keys};
ghost use Rattle.cell.specs.step.Entries.{entry_is};
ghost use Rattle.run.specs.Walks.{Room, Walked};
ghost use Rattle.track.specs.span.Runs.{Runs, SpanIs, entry_on, entry_by};

use crate::span::{ReadBy, Span};
use cell::Cell;
use cell::step::entry::Entry;
use run::fill_changes;
use run::inside::fill_run;
use run::walk::Went;
use sdf::part::{clip_begin, clip_end};

// Writes the changes above the key k and up to hi in a cell that says `here` at k, from slot n on.
fn fill_cell(
    times: &[f64],
    values: &[f64],
    marks: &[u8],
    ends: &[u64],
    cell: Cell,
    here: Entry,
    k: u64,
    hi: u64,
    room: usize,
    n: usize,
    outtimes: &mut [f64],
    outvalues: &mut [f64],
    outmarks: &mut [u8],
) -> Went
    requires keys { Keys k hi }
    requires runs { Runs times.now values.now marks.now ends.now cell k hi }
    requires room { Room room n (outputs outtimes.old outvalues.old outmarks.old) }
    ensures { Walked (entry_on times.now values.now marks.now ends.now cell (entry_is here)) k hi room n (outputs outtimes.old outvalues.old outmarks.old) (outputs outtimes.new outvalues.new outmarks.new) result }
{
    let Cell::Reading(clip, line) = cell else {
        return Went {
            key: hi,
            last: here,
            count: n,
            done: true,
        };
    };
    let a = clip_begin(ends, clip);
    let b = clip_end(ends, clip);
    fill_changes(
        &times[a..b],
        &values[a..b],
        &marks[a..b],
        line,
        k,
        hi,
        room,
        n,
        outtimes,
        outvalues,
        outmarks,
    )
}

// Writes the changes above the key k in its span from slot n on.
pub fn fill_in(
    times: &[f64],
    values: &[f64],
    marks: &[u8],
    ends: &[u64],
    s: Span,
    k: u64,
    room: usize,
    n: usize,
    outtimes: &mut [f64],
    outvalues: &mut [f64],
    outmarks: &mut [u8],
) -> Went
    requires keys { Keys k s.hi }
    requires span_is { SpanIs times.now values.now marks.now ends.now s.way (entry_is s.here) k s.hi }
    requires room { Room room n (outputs outtimes.old outvalues.old outmarks.old) }
    ensures { Walked (entry_by times.now values.now marks.now ends.now s.way (entry_is s.here)) k s.hi room n (outputs outtimes.old outvalues.old outmarks.old) (outputs outtimes.new outvalues.new outmarks.new) result }
{
    match s.way {
        ReadBy::ByCell(cell) => fill_cell(
            times, values, marks, ends, cell, s.here, k, s.hi, room, n, outtimes, outvalues,
            outmarks,
        ),
        ReadBy::ByRun(clip, _, segment, near) => {
            let a = clip_begin(ends, clip);
            let b = clip_end(ends, clip);
            fill_run(
                &times[a..b],
                &values[a..b],
                &marks[a..b],
                segment,
                s.here,
                near,
                k,
                s.hi,
                room,
                n,
                outtimes,
                outvalues,
                outmarks,
            )
        }
    }
}

// The bake: the head and the changes of the value, counted before any is written.
ghost use Rattle.std.specs.Prelude.{length, ◌≡◌, ◌<◌};
ghost use Rattle.gf.specs.Doubles as Key;
ghost use Rattle.definitions.specs.Track.{slots};
ghost use Rattle.definitions.specs.Moments.{outputs};
ghost use Rattle.laws.specs.cell.Lent.{AcceptedLists, set_of, samples_of};
ghost use Rattle.window.specs.search.Latest.{LatestOf};
ghost use Rattle.run.specs.Walks.{Room};
ghost use Rattle.track.specs.Bakes.{BakeIs};
ghost use Rattle.track.specs.Fills.{CursorIs, copied};

use crate::count::count_within;
use crate::fill::{Cursor, fill, least_cursor, shortest};
use definitions::Missing;
use definitions::refusal::Refusal;
use gf::MOST;
use window::search::latest::latest_inverses;

// How many changes a page holds.
pub const PAGE: usize = 256;

// What a bake replies: the head, and the number of changes.
#[derive(Clone, Copy)]
pub struct Baked {
    pub mark: u8,
    pub value: f64,
    pub count: usize,
}

// The first n changes of a page, written to the outputs.
fn write_page(
    pagetimes: &[f64],
    pagevalues: &[f64],
    pagemarks: &[u8],
    n: usize,
    outtimes: &mut [f64],
    outvalues: &mut [f64],
    outmarks: &mut [u8],
)
    requires fact_1 { Room n 0 (outputs pagetimes.now pagevalues.now pagemarks.now) }
    requires fact_2 { Room n 0 (outputs outtimes.old outvalues.old outmarks.old) }
    ensures { outputs outtimes.new outvalues.new outmarks.new ≡ copied n (outputs pagetimes.now pagevalues.now pagemarks.now) (outputs outtimes.old outvalues.old outmarks.old) }
{
    outtimes[..n].copy_from_slice(&pagetimes[..n]);
    outvalues[..n].copy_from_slice(&pagevalues[..n]);
    outmarks[..n].copy_from_slice(&pagemarks[..n]);
}

// Bakes from the cursor at the lowest key, with a page at hand. A track that fits into the page is walked once; of any other the
// pages are counted, and then it is walked again.
fn bake_by_pages(
    starts: &[f64],
    clips: &[u64],
    xs: &[f64],
    ys: &[f64],
    blocks: &[f64],
    m: Missing,
    times: &[f64],
    values: &[f64],
    marks: &[u8],
    ends: &[u64],
    latest: &[f64],
    from: Cursor,
    pagetimes: &mut [f64],
    pagevalues: &mut [f64],
    pagemarks: &mut [u8],
    outtimes: &mut [f64],
    outvalues: &mut [f64],
    outmarks: &mut [u8],
) -> Result<Baked, Refusal>
    requires accepted_lists { AcceptedLists starts.now clips.now xs.now ys.now blocks.now m times.now values.now marks.now ends.now }
    requires latest_of { LatestOf xs.now ys.now latest.now }
    requires cursor_is_1 { CursorIs starts.now clips.now xs.now ys.now blocks.now m times.now values.now marks.now ends.now Key.most from }
    requires cursor_is_2 { from.key ≡ Key.least }
    requires nonzero { 0 < slots (outputs pagetimes.old pagevalues.old pagemarks.old) }
    ensures { BakeIs (set_of (length ends.now) starts.now clips.now xs.now ys.now blocks.now m) (samples_of times.now values.now marks.now ends.now) (outputs outtimes.old outvalues.old outmarks.old) (outputs outtimes.new outvalues.new outmarks.new) result }
{
    let room = shortest(outtimes.len(), outvalues.len(), outmarks.len());
    let head = from.last;
    let first = fill(
        starts, clips, xs, ys, blocks, m, times, values, marks, ends, latest, from, MOST,
        pagetimes, pagevalues, pagemarks,
    );
    let count = first.count;
    if room < count {
        return Err(Refusal::NoRoom);
    }
    if first.done {
        write_page(
            pagetimes, pagevalues, pagemarks, count, outtimes, outvalues, outmarks,
        );
        return Ok(Baked {
            mark: head.mark,
            value: head.value,
            count,
        });
    }
    let left = room - count;
    let rest = count_within(
        starts,
        clips,
        xs,
        ys,
        blocks,
        m,
        times,
        values,
        marks,
        ends,
        latest,
        first.cursor,
        MOST,
        left,
        pagetimes,
        pagevalues,
        pagemarks,
    );
    if left < rest {
        return Err(Refusal::NoRoom);
    }
    let filled = fill(
        starts, clips, xs, ys, blocks, m, times, values, marks, ends, latest, from, MOST, outtimes,
        outvalues, outmarks,
    );
    Ok(Baked {
        mark: head.mark,
        value: head.value,
        count: filled.count,
    })
}

// Bakes with a page of its own, from the value at the lowest finite double on.
fn bake_from_least(
    starts: &[f64],
    clips: &[u64],
    xs: &[f64],
    ys: &[f64],
    blocks: &[f64],
    m: Missing,
    times: &[f64],
    values: &[f64],
    marks: &[u8],
    ends: &[u64],
    latest: &[f64],
    outtimes: &mut [f64],
    outvalues: &mut [f64],
    outmarks: &mut [u8],
) -> Result<Baked, Refusal>
    requires accepted_lists { AcceptedLists starts.now clips.now xs.now ys.now blocks.now m times.now values.now marks.now ends.now }
    requires latest_of { LatestOf xs.now ys.now latest.now }
    ensures { BakeIs (set_of (length ends.now) starts.now clips.now xs.now ys.now blocks.now m) (samples_of times.now values.now marks.now ends.now) (outputs outtimes.old outvalues.old outmarks.old) (outputs outtimes.new outvalues.new outmarks.new) result }
{
    let from = least_cursor(starts, clips, xs, ys, blocks, m, times, values, marks, ends);
    let mut pagetimes: [f64; PAGE] = [0.0; PAGE];
    let mut pagevalues: [f64; PAGE] = [0.0; PAGE];
    let mut pagemarks: [u8; PAGE] = [0; PAGE];
    bake_by_pages(
        starts,
        clips,
        xs,
        ys,
        blocks,
        m,
        times,
        values,
        marks,
        ends,
        latest,
        from,
        &mut pagetimes,
        &mut pagevalues,
        &mut pagemarks,
        outtimes,
        outvalues,
        outmarks,
    )
}

// Bakes the value into its track: the head is the value at the lowest finite double. 22: the shortest output has fewer slots than
// there are changes.
pub fn bake(
    starts: &[f64],
    clips: &[u64],
    xs: &[f64],
    ys: &[f64],
    blocks: &[f64],
    m: Missing,
    times: &[f64],
    values: &[f64],
    marks: &[u8],
    ends: &[u64],
    outtimes: &mut [f64],
    outvalues: &mut [f64],
    outmarks: &mut [u8],
) -> Result<Baked, Refusal>
    requires { AcceptedLists starts.now clips.now xs.now ys.now blocks.now m times.now values.now marks.now ends.now }
    ensures { BakeIs (set_of (length ends.now) starts.now clips.now xs.now ys.now blocks.now m) (samples_of times.now values.now marks.now ends.now) (outputs outtimes.old outvalues.old outmarks.old) (outputs outtimes.new outvalues.new outmarks.new) result }
{
    // without segments there are no inverse times, and no list of them is made
    if xs.len() < 2 {
        return bake_from_least(
            starts,
            clips,
            xs,
            ys,
            blocks,
            m,
            times,
            values,
            marks,
            ends,
            &xs[..0],
            outtimes,
            outvalues,
            outmarks,
        );
    }
    let latest = latest_inverses(xs, ys);
    bake_from_least(
        starts,
        clips,
        xs,
        ys,
        blocks,
        m,
        times,
        values,
        marks,
        ends,
        &latest.items,
        outtimes,
        outvalues,
        outmarks,
    )
}

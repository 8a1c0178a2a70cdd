// The changes counted, page by page.
ghost use Rattle.std.specs.Prelude.{◌≡◌, ◌+◌, ◌<◌, min, length};
ghost use Rattle.definitions.specs.Track.{slots};
ghost use Rattle.definitions.specs.Moments.{outputs};
ghost use Rattle.laws.specs.cell.Lent.{AcceptedLists, set_of, samples_of};
ghost use Rattle.window.specs.search.Latest.{LatestOf};
ghost use Rattle.track.specs.span.Changes.{changes_of};
ghost use Rattle.track.specs.Bakes.{track_of};
ghost use Rattle.track.specs.Fills.{CursorIs};

use crate::bake::PAGE;
use crate::fill::{Cursor, fill, least_cursor};
use definitions::Missing;
use gf::MOST;
use window::search::latest::latest_inverses;

// Room for every change: a count is never above it.
const ANY_COUNT: usize = 0xffff_ffff_ffff_ffff;

// The number of changes above the cursor's key and up to top, or some number beyond the room if it is beyond. Each page is filled and
// dropped; the count stops at the first page with a change beyond the room.
pub fn count_within(
    starts: &[f64],
    clips: &[u64],
    xs: &[f64],
    ys: &[f64],
    blocks: &[f64],
    m: Missing,
    times: &[f64],
    values: &[f64],
    marks: &[u8],
    ends: &[u64],
    latest: &[f64],
    from: Cursor,
    top: u64,
    room: usize,
    pagetimes: &mut [f64],
    pagevalues: &mut [f64],
    pagemarks: &mut [u8],
) -> usize
    requires accepted_lists { AcceptedLists starts.now clips.now xs.now ys.now blocks.now m times.now values.now marks.now ends.now }
    requires latest_of { LatestOf xs.now ys.now latest.now }
    requires cursor_is { CursorIs starts.now clips.now xs.now ys.now blocks.now m times.now values.now marks.now ends.now top from }
    requires nonzero { 0 < slots (outputs pagetimes.old pagevalues.old pagemarks.old) }
    ensures { min result (room + 1) ≡ min (length (changes_of (set_of (length ends.now) starts.now clips.now xs.now ys.now blocks.now m) (samples_of times.now values.now marks.now ends.now) from.key top)) (room + 1) }
{
    let mut at = from;
    let mut count: usize = 0;
    loop {
        let page = fill(
            starts, clips, xs, ys, blocks, m, times, values, marks, ends, latest, at, top,
            pagetimes, pagevalues, pagemarks,
        );
        count += page.count;
        if page.done {
            return count;
        }
        if room < count {
            return count;
        }
        at = page.cursor;
    }
}

// Counts with a page of its own, from the lowest finite double on.
fn count_from_least(
    starts: &[f64],
    clips: &[u64],
    xs: &[f64],
    ys: &[f64],
    blocks: &[f64],
    m: Missing,
    times: &[f64],
    values: &[f64],
    marks: &[u8],
    ends: &[u64],
    latest: &[f64],
) -> usize
    requires accepted_lists { AcceptedLists starts.now clips.now xs.now ys.now blocks.now m times.now values.now marks.now ends.now }
    requires latest_of { LatestOf xs.now ys.now latest.now }
    ensures { result ≡ length (track_of (set_of (length ends.now) starts.now clips.now xs.now ys.now blocks.now m) (samples_of times.now values.now marks.now ends.now)).changes }
{
    let from = least_cursor(starts, clips, xs, ys, blocks, m, times, values, marks, ends);
    let mut pagetimes: [f64; PAGE] = [0.0; PAGE];
    let mut pagevalues: [f64; PAGE] = [0.0; PAGE];
    let mut pagemarks: [u8; PAGE] = [0; PAGE];
    count_within(
        starts,
        clips,
        xs,
        ys,
        blocks,
        m,
        times,
        values,
        marks,
        ends,
        latest,
        from,
        MOST,
        ANY_COUNT,
        &mut pagetimes,
        &mut pagevalues,
        &mut pagemarks,
    )
}

// How many changes the track has: the slots that a bake asks for.
pub fn change_count(
    starts: &[f64],
    clips: &[u64],
    xs: &[f64],
    ys: &[f64],
    blocks: &[f64],
    m: Missing,
    times: &[f64],
    values: &[f64],
    marks: &[u8],
    ends: &[u64],
) -> usize
    requires { AcceptedLists starts.now clips.now xs.now ys.now blocks.now m times.now values.now marks.now ends.now }
    ensures { result ≡ length (track_of (set_of (length ends.now) starts.now clips.now xs.now ys.now blocks.now m) (samples_of times.now values.now marks.now ends.now)).changes }
{
    // without segments there are no inverse times, as in a bake
    if xs.len() < 2 {
        return count_from_least(
            starts,
            clips,
            xs,
            ys,
            blocks,
            m,
            times,
            values,
            marks,
            ends,
            &xs[..0],
        );
    }
    let latest = latest_inverses(xs, ys);
    count_from_least(
        starts,
        clips,
        xs,
        ys,
        blocks,
        m,
        times,
        values,
        marks,
        ends,
        &latest.items,
    )
}

// The neighbours of a time among a window's times, by a search that begins at hints: the starts, the knots beside the time, and the samples whose inverse
// times pass it in its segment.

pub mod latest;

ghost use Rattle.std.specs.Prelude.{◌≡◌, true, ◌+◌, ◌≤◌, ◌<◌, length};
ghost use Rattle.definitions.specs.Timing.{last_at_most};
ghost use Rattle.window.specs.Bounds.{nothing, NeighboursAre};
ghost use Rattle.window.specs.nearest.Nearest.{Searched};
ghost use Rattle.window.specs.search.Latest.{LatestOf};
ghost use Rattle.window.specs.search.Reaches.{Searchable, PastAll, times_of, Reached, Around};
ghost use Rattle.window.specs.search.Windowed.{bounds_of, starts_of, window_times, Nearing};

use crate::Neighbours;
use crate::crossing::crossing;
use crate::nearest::candidate::with_near;
use crate::nearest::{near_crossing, near_times};
use definitions::Source;
use gf::interval::Interval;
use latest::latest_before;
use lists::segment::segment_at;

// The window of a start: its time, its ends, its clip, the clip's samples `begin..end` if they contribute, and what stands in where there are none.
#[derive(Clone, Copy)]
pub struct Window {
    pub start: f64,
    pub min: f64,
    pub max: f64,
    pub clip: u64,
    pub begin: usize,
    pub end: usize,
    pub gap: Source,
}

// The neighbours of a time, the place of the last knot that is at most it, and the place of a sample beside it: hints for the next search, on which no contract rests.
#[derive(Clone, Copy)]
pub struct NeighboursAndHints {
    pub lower: Option<f64>,
    pub upper: Option<f64>,
    pub knot: usize,
    pub sample: usize,
}

// The neighbours of `t` with the inverse times of all samples in the segment from the knot at `j` on. The sample's hint moves.
fn near_segment(
    known: NeighboursAndHints,
    xs: &[f64],
    ys: &[f64],
    cs: &[f64],
    j: usize,
    w: Interval,
    t: f64,
) -> NeighboursAndHints
    requires fact_1 { Searchable xs.now ys.now cs.now w t }
    requires fact_2 { j + 1 < length xs.now }
    ensures { Searched t (times_of w xs.now ys.now cs.now j) (bounds_of known) (bounds_of result) }
{
    let s = segment_at(xs, ys, j);
    let n = crossing(cs, s.a.x, s.a.y, s.b.x, s.b.y, t, known.sample);
    let both = Neighbours {
        lower: known.lower,
        upper: known.upper,
    };
    let found = near_crossing(both, s, cs, n, w, t);
    NeighboursAndHints {
        lower: found.lower,
        upper: found.upper,
        knot: known.knot,
        sample: n,
    }
}

// No time up to `top` is above the lower neighbour.
fn is_past(lower: Option<f64>, top: f64) -> bool
    ensures { (result ≡ true) → PastAll lower top }
{
    match lower {
        Some(l) => top <= l,
        None => false,
    }
}

// With those of the segments before the knot at `to`, from the last one down, until none can reach past the lower neighbour. That neighbour is not below the
// knot at `i`, so only by rounding does one before it reach past it. `near_segment` is called at one place, and so compiled into the loop.
fn near_before(
    known: NeighboursAndHints,
    xs: &[f64],
    ys: &[f64],
    latest: &[f64],
    cs: &[f64],
    i: usize,
    to: usize,
    w: Interval,
    t: f64,
) -> NeighboursAndHints
    requires searchable_1 { Searchable xs.now ys.now cs.now w t }
    requires searchable_2 { LatestOf xs.now ys.now latest.now }
    requires searchable_3 { i < length xs.now }
    requires searchable_4 { i ≡ last_at_most xs.now t }
    requires to_in_bounds { to < length xs.now }
    ensures { Reached t w xs.now ys.now cs.now 0 to (bounds_of known) (bounds_of result) }
{
    let mut r = known;
    for j in (0..to).rev() {
        if j < i && is_past(r.lower, latest_before(xs, ys, latest, j + 1)) {
            return r;
        }
        r = near_segment(r, xs, ys, cs, j, w, t);
    }
    r
}

// The place behind `i`, or `i` if it is the last.
fn next_place(xs: &[f64], i: usize) -> usize
    requires { i < length xs.now }
    ensures { (i ≤ result) × (result < length xs.now) × (i + 1 < length xs.now → i < result) }
{
    if i + 1 < xs.len() {
        return i + 1;
    }
    i
}

// With those of all segments: from the next knot on they lie above it.
fn near_around(
    known: Neighbours,
    xs: &[f64],
    ys: &[f64],
    latest: &[f64],
    cs: &[f64],
    i: usize,
    w: Interval,
    t: f64,
    sample: usize,
) -> NeighboursAndHints
    requires fact_1 { Searchable xs.now ys.now cs.now w t }
    requires fact_2 { LatestOf xs.now ys.now latest.now }
    requires fact_3 { i < length xs.now }
    requires fact_4 { i ≡ last_at_most xs.now t }
    ensures { Around t w xs.now ys.now cs.now known (bounds_of result) }
{
    let hinted = NeighboursAndHints {
        lower: known.lower,
        upper: known.upper,
        knot: i,
        sample,
    };
    let to = next_place(xs, i);
    near_before(hinted, xs, ys, latest, cs, i, to, w, t)
}

// The neighbours of `t` among the window's start and the next start.
fn near_starts(w: Window, t: f64) -> Neighbours
    ensures { Searched t (starts_of w) nothing result }
{
    let none = Neighbours {
        lower: None,
        upper: None,
    };
    let first = with_near(none, w.start, t);
    if w.max < f64::INFINITY {
        return with_near(first, w.max, t);
    }
    first
}

// The neighbours of `t` among the times of its window, whose samples are `cs`. A hint is any number. Where the latest inverse times
// are at hand no search passes over the knots.
pub fn neighbours_in(
    xs: &[f64],
    ys: &[f64],
    latest: &[f64],
    cs: &[f64],
    w: Window,
    t: f64,
    knot: usize,
    sample: usize,
) -> NeighboursAndHints
    requires { Nearing xs.now ys.now latest.now cs.now w t }
    ensures { NeighboursAre (window_times xs.now ys.now cs.now w) t (bounds_of result) }
{
    let inside = Interval {
        min: w.min,
        max: w.max,
    };
    let starts = near_starts(w, t);
    if xs.len() == 0 {
        let place = lists::near::last_at_most_near(cs, t, sample);
        let found = near_times(starts, cs, place, inside, t);
        return NeighboursAndHints {
            lower: found.lower,
            upper: found.upper,
            knot: 0,
            sample: place,
        };
    }
    let i = lists::near::last_at_most_near(xs, t, knot);
    let knots = near_times(starts, xs, i, inside, t);
    near_around(knots, xs, ys, latest, cs, i, inside, t, sample)
}

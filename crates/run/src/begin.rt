// Where a run of samples in one segment of knots begins: its lower neighbour, and the inverse time up to which it goes.
ghost use Rattle.std.specs.Prelude.{◌≡◌, ◌⊎◌, true, not, ◌+◌, ◌≤◌, ◌<◌, T, length};
ghost use Rattle.std.specs.Float.{inf};
ghost use Rattle.std.specs.Float.Ieee.{is_nan, lt, le};
ghost use Rattle.laws.specs.list.Places.{Ascending};
ghost use Rattle.window.specs.search.Windowed.{samples_in, Lent, Nearing};
ghost use Rattle.run.specs.begin.Begins.{BeforeIs, LastIs, PastLatest, RunBeginIs};

use definitions::Segment;
use gf::{LEAST, MOST};
use lists::segment::{segment_at, spans, stage_time};
use value::windowed::is_between;
use window::crossing::crossing;
use window::search::{Window, neighbours_in};

// The place of the segment's first knot, the lower neighbour, the inverse time up to which the run goes,
// and the place of a sample near its beginning.
#[derive(Clone, Copy)]
pub struct RunBegin {
    pub knot: usize,
    pub lower: f64,
    pub upto: f64,
    pub sample: usize,
}

// The sample that is passed last before the turn at n: the one before it where the segment rises.
fn place_passed(s: Segment, n: usize) -> usize
    ensures { result ≤ n }
{
    if s.a.y < s.b.y {
        n.saturating_sub(1)
    } else {
        n
    }
}

// The last inverse time below `ceil`, by the turn at the double below it.
fn last_before(cs: &[f64], s: Segment, ceil: f64) -> Option<f64>
    requires { T (not (is_nan ceil)) }
    ensures { BeforeIs cs.now (s.a, s.b) ceil result }
{
    let k = gf::key(ceil);
    if k <= LEAST || MOST < k {
        return None;
    }
    let n = crossing(cs, s.a.x, s.a.y, s.b.x, s.b.y, gf::of_key(k - 1), 0);
    let i = place_passed(s, n);
    if i < cs.len() && spans(s, cs[i]) {
        let h = stage_time(s, cs[i]);
        if h < ceil {
            return Some(h);
        }
    }
    None
}

// The last inverse time of the segment from the knot at i on that is below `max` and below the next knot.
fn last_in(xs: &[f64], ys: &[f64], cs: &[f64], i: usize, max: f64) -> Option<f64>
    requires ascending_1 { Ascending xs.now }
    requires ascending_2 { length xs.now ≡ length ys.now }
    requires ascending_3 { i + 1 < length xs.now }
    requires t { T (not (is_nan max)) }
    ensures { LastIs xs.now ys.now cs.now i max result }
{
    let s = segment_at(xs, ys, i);
    last_before(cs, s, max.min(s.b.x))
}

// Whether the run begins at t: from the start on, and below h.
fn is_below(start: f64, t: f64, h: f64) -> bool
    ensures { (result ≡ true) → T (le start t) × T (lt t h) }
{
    start <= t && t < h
}

// Whether no inverse time of the segments before the knot at i is above l.
fn is_past(latest: &[f64], i: usize, l: f64) -> bool
    ensures { (result ≡ true) → PastLatest latest.now i l }
{
    i == 0 || (i - 1 < latest.len() && latest[i - 1] <= l)
}

// The run that begins at t, if t lies in a segment and below the last of its inverse times before the next
// knot and the next start. The hints are a knot and a sample. To say that none begins is never wrong: the cells say the same, one by one.
pub fn run_begin(
    xs: &[f64],
    ys: &[f64],
    latest: &[f64],
    times: &[f64],
    w: Window,
    t: f64,
    knot: usize,
    sample: usize,
) -> Option<RunBegin>
    requires nearing_1 { Nearing xs.now ys.now latest.now (samples_in times.now w) w t }
    requires nearing_2 { Lent times.now w }
    requires fact { (w.min ≡ inf true) ⊎ (w.min ≡ w.start) }
    ensures { RunBeginIs xs.now ys.now latest.now times.now w t result }
{
    if w.end <= w.begin {
        return None;
    }
    let i = lists::near::last_at_most_near(xs, t, knot);
    if !is_between(xs, t, i) {
        return None;
    }
    let upto = last_in(xs, ys, &times[w.begin..w.end], i, w.max)?;
    if !is_below(w.start, t, upto) {
        return None;
    }
    let near = neighbours_in(xs, ys, latest, &times[w.begin..w.end], w, t, i, sample);
    let lower = near.lower?;
    if !is_past(latest, i, lower) {
        return None;
    }
    Some(RunBegin {
        knot: i,
        lower,
        upto,
        sample: near.sample,
    })
}

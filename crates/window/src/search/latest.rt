// How far the inverse times of the segments reach.

ghost use Rattle.std.specs.Prelude.{◌≡◌, ◌≤◌, ◌<◌, length};
ghost use Rattle.definitions.specs.Lists.{pairs};
ghost use Rattle.definitions.specs.ClipSet.{max_knots};
ghost use Rattle.laws.specs.list.Every.{Every};
ghost use Rattle.laws.specs.list.Places.{Number};
ghost use Rattle.laws.specs.cell.Lent.{knots_of};
ghost use Rattle.window.specs.SoundSegments.{SoundSegment};
ghost use Rattle.window.specs.search.Latest.{LaterInverse, LatestBefore, LatestOf};

use definitions::Segment;
use definitions::limits::KNOTS;
use lists::segment::{segment_at, stage_time};

// For each segment a time that no inverse time of it or of a segment before it is above. A later one would do as well, and spare less of a search.
#[derive(Clone, Copy)]
pub struct LatestInverses {
    pub items: [f64; KNOTS],
}

// An array whose contents do not matter yet.
fn some_times() -> [f64; KNOTS]
    ensures { length result ≡ max_knots }
{
    [0.0; KNOTS]
}

// The greater of `top` and the last inverse time of a segment, which is that of its second clip time; with equal clip times it has none.
fn later_inverse(top: f64, s: Segment) -> f64
    requires fact_1 { SoundSegment (s.a, s.b) }
    requires fact_2 { Number top }
    ensures { LaterInverse (s.a, s.b) top result }
{
    if s.a.y == s.b.y {
        return top;
    }
    top.max(stage_time(s, s.b.y))
}

// A time that no inverse time of the segments before the knot at `i` is above.
fn latest_inverse(xs: &[f64], ys: &[f64], i: usize) -> f64
    requires fact_1 { length xs.now ≡ length ys.now }
    requires fact_2 { Every SoundSegment (pairs (knots_of xs.now ys.now)) }
    requires fact_3 { i < length xs.now }
    ensures { LatestBefore xs.now ys.now i result }
{
    let mut top = f64::NEG_INFINITY;
    for k in 0..i {
        top = later_inverse(top, segment_at(xs, ys, k));
    }
    top
}

// The same, read off where the latest inverse times are at hand.
pub fn latest_before(xs: &[f64], ys: &[f64], latest: &[f64], i: usize) -> f64
    requires fact_1 { length xs.now ≡ length ys.now }
    requires fact_2 { Every SoundSegment (pairs (knots_of xs.now ys.now)) }
    requires fact_3 { LatestOf xs.now ys.now latest.now }
    requires fact_4 { i < length xs.now }
    requires fact_5 { 0 < i }
    ensures { LatestBefore xs.now ys.now i result }
{
    if i - 1 < latest.len() {
        return latest[i - 1];
    }
    latest_inverse(xs, ys, i)
}

// The latest of all segments.
pub fn latest_inverses(xs: &[f64], ys: &[f64]) -> LatestInverses
    requires fact_1 { length xs.now ≡ length ys.now }
    requires fact_2 { length xs.now ≤ max_knots }
    requires fact_3 { Every SoundSegment (pairs (knots_of xs.now ys.now)) }
    ensures { LatestOf xs.now ys.now result.items }
{
    let mut items = some_times();
    let mut top = f64::NEG_INFINITY;
    for i in 1..xs.len() {
        top = later_inverse(top, segment_at(xs, ys, i - 1));
        items[i - 1] = top;
    }
    LatestInverses { items }
}

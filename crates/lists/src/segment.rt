// Two neighbouring knots of the lists that are lent, and the way from stage times to clip times and back between them.

ghost use Rattle.std.specs.Prelude.{◌≡◌, ◌+◌, ◌<◌, length};
ghost use Rattle.definitions.specs.Timing.{on_segment};
ghost use Rattle.definitions.specs.Value as Value;
ghost use Rattle.lists.specs.Segments.{knot_at, segment_at};

use definitions::{Knot, Segment};

// The knot at the place `i`.
pub fn knot_at(xs: &[f64], ys: &[f64], i: usize) -> Knot
    requires { (length xs.now ≡ length ys.now) × (i < length xs.now) }
    ensures { result ≡ knot_at xs.now ys.now i }
{
    Knot { x: xs[i], y: ys[i] }
}

// The segment from the knot at the place `i` on.
pub fn segment_at(xs: &[f64], ys: &[f64], i: usize) -> Segment
    requires fact_1 { length xs.now ≡ length ys.now }
    requires fact_2 { i + 1 < length xs.now }
    ensures { result ≡ segment_at xs.now ys.now i }
{
    let a = knot_at(xs, ys, i);
    let b = knot_at(xs, ys, i + 1);
    Segment { a, b }
}

// The clip time of the stage time `t`. The beginning is kept as it is.
pub fn clip_time(s: Segment, t: f64) -> f64
    ensures { result ≡ on_segment s.a s.b t }
{
    if t == s.a.x {
        return s.a.y;
    }
    gf::lerp(s.a.x, s.b.x, s.a.y, s.b.y, t)
}

// The stage time of the clip time `c`.
pub fn stage_time(s: Segment, c: f64) -> f64
    ensures { result ≡ Value.inverse s.a s.b c }
{
    gf::segment::inverse(s.a.x, s.b.x, s.a.y, s.b.y, c)
}

// Whether the clip time `c` lies between its ends. Equal clip times span nothing.
pub fn spans(s: Segment, c: f64) -> bool
    ensures { result ≡ Value.spans s.a.y s.b.y c }
{
    gf::segment::spans(s.a.y, s.b.y, c)
}

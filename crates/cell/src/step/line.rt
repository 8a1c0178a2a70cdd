// The line that leads from stage times to clip times in a cell, and the place that is read along it.
ghost use Rattle.std.specs.Prelude.{◌≡◌, not, ◌≤◌, T, length};
ghost use Rattle.std.specs.Float.Ieee.{is_nan};
ghost use Rattle.gf.specs.Doubles as Key;
ghost use Rattle.laws.specs.list.Places.{Ascending};
ghost use Rattle.laws.specs.cell.Knots as Knots;
ghost use Rattle.laws.specs.cell.Lent.{knots_of};
ghost use Rattle.cell.specs.step.Lines.{line_is, place_on};

use definitions::Segment;
use lists::segment::{clip_time, segment_at};

// How stage times lead to clip times in a cell: no knots, below the first or from the last on, or
// between two knots.
#[derive(Clone, Copy)]
pub enum Line {
    Identity,
    Flat(f64),
    Segment(Segment),
}

// The line at the stage time t.
pub fn line_of(xs: &[f64], ys: &[f64], t: f64) -> Line
    requires xs_len { length xs.now ≡ length ys.now }
    requires ascending { Ascending xs.now }
    requires t { T (not (is_nan t)) }
    ensures { line_is result ≡ Knots.line_of (knots_of xs.now ys.now) t }
{
    let n = xs.len();
    if n == 0 {
        return Line::Identity;
    }
    if t < xs[0] {
        return Line::Flat(ys[0]);
    }
    let last = n - 1;
    if xs[last] <= t {
        return Line::Flat(ys[last]);
    }
    let lo = lists::last_at_most(xs, t);
    Line::Segment(segment_at(xs, ys, lo))
}

// The clip time that a line gives.
pub fn along(line: Line, t: f64) -> f64
    ensures { result ≡ Knots.along (line_is line) t }
{
    match line {
        Line::Identity => t,
        Line::Flat(y) => y,
        Line::Segment(s) => clip_time(s, t),
    }
}

// The place of the sample that is read at the key k.
pub fn place_on(times: &[f64], line: Line, k: u64) -> usize
    requires ascending { Ascending times.now }
    requires le_k { (Key.least ≤ k) × (k ≤ Key.most) }
    ensures { result ≡ place_on times.now line k }
{
    lists::last_at_most(times, along(line, gf::of_key(k)))
}

// A cell: a stretch of stage times on which one source is read, or one clip along one line.

#![tactic(auto)]

// The end of a cell by its key.
pub mod end;
// The window that a walk is in.
pub mod place;
pub mod step;

ghost use Rattle.std.specs.Prelude.{◌≡◌, ◌-◌, length};
ghost use Rattle.definitions.specs.Doubles.{FiniteDouble};
ghost use Rattle.laws.specs.list.Places.{Ascending};
ghost use Rattle.window.specs.Bounds.{UpperIs};
ghost use Rattle.cell.specs.CellAndEnd.{cell_is, held_of, direct_in, CellAsks, CellIn};

use crate::step::line::{Line, line_of};
use definitions::{Source, StageTime};
use place::WindowPlace;
use value::jump::is_jump;
use value::windowed::source_in;
use window::search::{NeighboursAndHints, Window, neighbours_in};

// What is read from a stage time on: one source, or a clip's samples held along a line.
#[derive(Clone, Copy)]
pub enum Cell {
    Constant(Source),
    Reading(u64, Line),
}

// The cell of a stage time, and the least boundary above it, up to which the cell says the value; and a
// knot and a sample near it: hints, on which no contract rests.
#[derive(Clone, Copy)]
pub struct CellAndEnd {
    pub cell: Cell,
    pub end: Option<f64>,
    pub knot: usize,
    pub sample: usize,
}

// The least of ascending times that is above t.
fn first_above(xs: &[f64], t: f64) -> Option<f64>
    requires ascending { Ascending xs.now }
    requires finite_double { FiniteDouble t }
    ensures { UpperIs xs.now t result }
{
    if xs.len() == 0 {
        return None;
    }
    if t < xs[0] {
        return Some(xs[0]);
    }
    xs.get(lists::last_at_most(xs, t) + 1).copied()
}

// The cell of the direct reading at t, by its window.
fn direct_cell(starts: &[f64], xs: &[f64], ys: &[f64], w: Window, t: f64) -> Cell
    requires ascending_1 { Ascending xs.now }
    requires ascending_2 { length xs.now ≡ length ys.now }
    requires finite_double { FiniteDouble t }
    ensures { cell_is result ≡ direct_in starts.now xs.now ys.now w t }
{
    if starts.len() == 0 {
        return Cell::Constant(Source::Absent);
    }
    if w.begin < w.end {
        return Cell::Reading(w.clip, line_of(xs, ys, t));
    }
    Cell::Constant(w.gap)
}

// The time whose direct value is held between two neighbours: the lower one, unless one of them is
// missing or two knots share an x between them.
fn held_from(xs: &[f64], near: NeighboursAndHints) -> Option<f64>
    requires { Ascending xs.now }
    ensures { result ≡ held_of xs.now near.lower near.upper }
{
    match (near.lower, near.upper) {
        (Some(l), Some(h)) if !is_jump(xs, l, h, near.knot) => Some(l),
        _ => None,
    }
}

// The cell of t and its end. One start: direct, up to the next knot. Several: held from the lower
// neighbour or direct, up to the upper one.
pub fn cell_at(
    starts: &[f64],
    xs: &[f64],
    ys: &[f64],
    times: &[f64],
    latest: &[f64],
    place: WindowPlace,
    t: f64,
) -> CellAndEnd
    requires { CellAsks starts.now xs.now ys.now times.now latest.now place.window t }
    ensures { CellIn starts.now xs.now ys.now times.now place.window t result.cell result.end }
{
    let w = place.window;
    if starts.len() < 2 {
        return CellAndEnd {
            cell: direct_cell(starts, xs, ys, w, t),
            end: first_above(xs, t),
            knot: place.knot,
            sample: place.sample,
        };
    }
    let found = neighbours_in(
        xs,
        ys,
        latest,
        &times[w.begin..w.end],
        w,
        t,
        place.knot,
        place.sample,
    );
    // the lower neighbour is the inverse time of a sample before the turn or at it
    let hint = found.sample.saturating_sub(1);
    let cell = match held_from(xs, found) {
        Some(l) => Cell::Constant(source_in(xs, ys, times, w, StageTime(l), found.knot, hint)),
        None => direct_cell(starts, xs, ys, w, t),
    };
    CellAndEnd {
        cell,
        end: found.upper,
        knot: found.knot,
        sample: found.sample,
    }
}

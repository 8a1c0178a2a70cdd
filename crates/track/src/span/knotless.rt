// A window of a set without knots: the value is the direct one, so that one cell reads it up to the next start.
ghost use Rattle.std.specs.Prelude.{◌≡◌, ◌&&◌, eqb, ltb, length};
ghost use Rattle.track.specs.span.Knotless.{knotless_cell};

use cell::Cell;
use cell::step::line::Line;
use window::search::Window;

// Whether there are several starts, and no knots.
pub fn is_knotless(starts: &[f64], xs: &[f64]) -> bool
    ensures { result ≡ (ltb 1 (length starts.now) && eqb (length xs.now) 0) }
{
    1 < starts.len() && xs.len() == 0
}

// The clip's samples, at the stage time itself, or what stands in for them.
pub fn knotless_cell(w: Window) -> Cell
    ensures { result ≡ knotless_cell w }
{
    if w.begin < w.end {
        return Cell::Reading(w.clip, Line::Identity);
    }
    Cell::Constant(w.gap)
}

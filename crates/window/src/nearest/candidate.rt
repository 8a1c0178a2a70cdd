// The neighbours of a time with one candidate more. Of equal times either will do.

ghost use Rattle.std.specs.Prelude.{◌≡◌};
ghost use Rattle.window.specs.nearest.Nearest.{greater_of, lesser_of, with_near, with_inside};

use crate::Neighbours;
use gf::interval::Interval;

// The later of what is known and `x`.
fn greater(known: Option<f64>, x: f64) -> Option<f64>
    ensures { result ≡ greater_of known x }
{
    match known {
        Some(y) if x <= y => known,
        _ => Some(x),
    }
}

// The earlier.
fn lesser(known: Option<f64>, x: f64) -> Option<f64>
    ensures { result ≡ lesser_of known x }
{
    match known {
        Some(y) if y <= x => known,
        _ => Some(x),
    }
}

// The neighbours of `t` with `x`, which is a number.
pub fn with_near(known: Neighbours, x: f64, t: f64) -> Neighbours
    ensures { result ≡ with_near t known x }
{
    if x <= t {
        return Neighbours {
            lower: greater(known.lower, x),
            upper: known.upper,
        };
    }
    Neighbours {
        lower: known.lower,
        upper: lesser(known.upper, x),
    }
}

// The same where `x` lies inside the window.
pub fn near_inside(known: Neighbours, x: f64, w: Interval, t: f64) -> Neighbours
    ensures { result ≡ with_inside w t known x }
{
    if w.contains(x) {
        return with_near(known, x, t);
    }
    known
}

// Two neighbouring knots, (sa, ca) and (sb, cb): stage times against clip times.

ghost use Rattle.std.specs.Prelude.{◌≡◌, ◌&&◌};
ghost use Rattle.std.specs.Float.Ieee.{lt, le};
ghost use Rattle.gf.specs.Doubles.{inverse_of, spans_of};

// The stage time of the clip time `c` on the line through both knots.
pub fn inverse(sa: f64, sb: f64, ca: f64, cb: f64, c: f64) -> f64
    ensures { result ≡ inverse_of sa sb ca cb c }
{
    sa + (c - ca) / (cb - ca) * (sb - sa)
}

// Whether `lo` is below `hi` and `c` lies between them, ends included.
fn lies_between(lo: f64, hi: f64, c: f64) -> bool
    ensures { result ≡ (lt lo hi && le lo c && le c hi) }
{
    lo < hi && lo <= c && c <= hi
}

// Whether `c` lies between the two clip times, ends included. Equal clip times span nothing.
pub fn spans(ca: f64, cb: f64, c: f64) -> bool
    ensures { result ≡ spans_of ca cb c }
{
    lies_between(ca, cb, c) || lies_between(cb, ca, c)
}

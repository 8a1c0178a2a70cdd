// A double without its sign.

ghost use Rattle.std.specs.Prelude.{◌≡◌, not, T, is_nan};
ghost use Rattle.gf.specs.Doubles as Doubles;

use crate::pattern::fields_of;

// The magnitude of a double that is no NaN: the sign is cleared, in -0.0 too.
pub fn without_sign(x: f64) -> f64
    requires { T (not (is_nan x)) }
    ensures { result ≡ Doubles.abs x }
{
    let f = fields_of(x);
    f64::from_bits(f.rank())
}

// The magnitude. A NaN stays one.
pub fn abs(x: f64) -> f64
    ensures { result ≡ Doubles.abs x }
{
    x.abs()
}

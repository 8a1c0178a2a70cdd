// What kind of number a double is, told by the range of its exponent field.

ghost use Rattle.std.specs.Prelude.{◌≡◌, ◌%◌, ◌^◌, ◌<◌, ◌==◌};
ghost use Rattle.gf.specs.Doubles.{is_whole, class_of};

use crate::pattern::fields_of;

// `Fraction` has a part below 1, `Whole` is a whole number other than 0, and `NotFinite` is an
// infinity or a NaN.
#[derive(Clone, Copy)]
pub enum Class {
    Zero,
    Fraction,
    Whole,
    NotFinite,
}

// Whether the low `count` binary digits are all 0.
fn ends_in_zeros(digits: u64, count: u64) -> bool
    requires { count < 64 }
    ensures { result ≡ (digits % 2 ^ count == 0) }
{
    digits & ((1 << count) - 1) == 0
}

pub fn classify(x: f64) -> Class
    ensures { result ≡ class_of x }
{
    // a NaN has no bit pattern of its own
    if x.is_nan() {
        return Class::NotFinite;
    }
    let f = fields_of(x);
    match f.exponent {
        // a zero or a subnormal
        0 => if f.fraction == 0 {
            Class::Zero
        } else {
            Class::Fraction
        },
        // below 1
        1..=1022 => Class::Fraction,
        // the digits below the point are the fraction's low 1075 - exponent ones
        1023..=1074 => if ends_in_zeros(f.fraction, 1075 - f.exponent) {
            Class::Whole
        } else {
            Class::Fraction
        },
        // from 2^52 on there are no digits below the point
        1075..=2046 => Class::Whole,
        _ => Class::NotFinite,
    }
}

// Finite, and with no part below 1.
pub fn is_whole(x: f64) -> bool
    ensures { result ≡ is_whole x }
{
    matches!(classify(x), Class::Zero | Class::Whole)
}

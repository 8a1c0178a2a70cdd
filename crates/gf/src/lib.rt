// Doubles by their order keys, and linear interpolation between two points.

#![tactic(auto)]

pub mod class;
pub mod clip_number;
pub mod interval;
pub mod magnitude;
pub mod pattern;
pub mod segment;
pub mod total_order;

ghost use Rattle.std.specs.Prelude.{◌≡◌, ◌≤◌, not, T, is_nan};
ghost use Rattle.std.specs.Float.Ieee.Scale.{finite};
ghost use Rattle.gf.specs.Doubles as Doubles;

use crate::class::{Class, classify};
use crate::magnitude::without_sign;
use std::num::f64_to_bits_with_nan;

// The keys of the lowest and of the greatest finite double.
pub const LEAST: u64 = 0x0010_0000_0000_0001;

pub const MOST: u64 = 0xffef_ffff_ffff_ffff;

// The place of `x` in the order of the doubles. Both zeros have the key 2^63.
pub fn key(x: f64) -> u64
    requires { T (not (is_nan x)) }
    ensures { result ≡ Doubles.key x }
{
    let b = x.to_bits();
    if b < 0x8000_0000_0000_0000 {
        0x8000_0000_0000_0000 + b
    } else {
        0x8000_0000_0000_0000 - (b - 0x8000_0000_0000_0000)
    }
}

// The finite double with the key `k`. Of the two zeros it is +0.0.
pub fn of_key(k: u64) -> f64
    requires { (Doubles.least ≤ k) × (k ≤ Doubles.most) }
    ensures { result ≡ Doubles.of_key k }
{
    if k < 0x8000_0000_0000_0000 {
        f64::from_bits(0x8000_0000_0000_0000 + (0x8000_0000_0000_0000 - k))
    } else {
        f64::from_bits(k - 0x8000_0000_0000_0000)
    }
}

// The value at `t` of the line through two points.
pub fn lerp(x0: f64, x1: f64, y0: f64, y1: f64, t: f64) -> f64
    ensures { result ≡ Doubles.lerp x0 x1 y0 y1 t }
{
    y0 + (y1 - y0) * ((t - x0) / (x1 - x0))
}

// 2^40, the greatest magnitude of a stored time.
const MOST_STORED: f64 = 1099511627776.0;

// Finite, and of magnitude at most 2^40: a time that may be stored. Both tests compile to one comparison without a
// branch, so that no step of a loop over a list branches.
pub fn is_storable(x: f64) -> bool
    ensures { result ≡ Doubles.storable x }
{
    !x.is_nan() && without_sign(x) <= MOST_STORED
}

// Neither a NaN nor an infinity. Told by the pattern, since of a number that is neither a subtraction, as in std's test, or a comparison by size
// may raise the processor's flag for an invalid operation.
pub fn is_finite(x: f64) -> bool
    ensures { result ≡ finite x }
{
    !matches!(classify(x), Class::NotFinite)
}

// A number whose order is that of `f64::total_cmp`, which places -0.0 before 0.0. One pattern stands for every NaN.
pub fn total_key(x: f64) -> u64
    ensures { result ≡ Doubles.total_key x }
{
    total_order::key(f64_to_bits_with_nan(x))
}

// The size of a clip time as an exact fraction, and its whole part and decimals.

ghost use Rattle.std.specs.Prelude.{◌≡◌, ◌+◌, ◌*◌, ◌/◌, ◌^◌, ◌≤◌, ◌<◌, T};
ghost use Rattle.std.specs.Float.Ieee.Nearest.{closest};
ghost use Rattle.gf.specs.Doubles.{storable};
ghost use Rattle.names.specs.Magnitude.{Measures};

use std::cmp::Ordering;

// The number digits / 2^shift, and the sign bit.
#[derive(Clone, Copy)]
pub struct Magnitude {
    pub negative: bool,
    pub digits: u64,
    pub shift: u64,
}

// The size of a storable double, from the fields of its pattern. At most 2^40, it leaves a shift
// of 12 at least.
pub fn measure(x: f64) -> Magnitude
    requires { T (storable x) }
    ensures { Measures x result }
{
    let bits = f64::to_bits(x);
    let negative = 0x8000_0000_0000_0000 <= bits;
    let field = bits % 0x8000_0000_0000_0000 / 4503599627370496;
    let digits = bits % 4503599627370496;
    if field == 0 {
        return Magnitude {
            negative,
            digits,
            shift: 1074,
        };
    }
    Magnitude {
        negative,
        digits: 4503599627370496 + digits,
        shift: 1075 - field,
    }
}

// The size without its fraction.
pub fn whole(m: Magnitude) -> u64
    ensures { result ≡ m.digits / 2 ^ m.shift }
{
    if 63 < m.shift {
        return 0;
    }
    m.digits >> m.shift
}

// 2^k.
fn power_of_two(k: u64) -> u64
    requires { k < 64 }
    ensures { result ≡ 2 ^ k }
{
    1u64 << k
}

// (high * 2048 + low) / (2^shift * 2048), to the nearest whole number, a tie to the even one.
fn nearest(high: u64, low: u64, shift: u64) -> u64
    requires { (high < 2 ^ 63) × (low < 2048) × (1 ≤ shift) }
    ensures { result ≡ closest (high * 2048 + low) (2 ^ shift * 2048) }
{
    if 63 < shift {
        return 0;
    }
    let unit = power_of_two(shift);
    let whole = high / unit;
    let rest = high % unit;
    let half = unit / 2;
    match rest.cmp(&half) {
        Ordering::Less => whole,
        Ordering::Equal if low == 0 => whole + whole % 2,
        _ => whole + 1,
    }
}

// The size in units of 10^-k, rounded. The product with 10^k takes up to 73 bits: its 11 lowest
// are kept apart.
pub fn decimals(m: Magnitude, k: usize) -> u64
    requires { (m.digits < 2 ^ 53) × (12 ≤ m.shift) × (k ≤ 6) }
    ensures { result ≡ closest (m.digits * 10 ^ k) (2 ^ m.shift) }
{
    let ten = 10u64.pow(k as u32);
    let low = m.digits % 2048 * ten;
    let high = m.digits / 2048 * ten + low / 2048;
    nearest(high, low % 2048, m.shift - 11)
}

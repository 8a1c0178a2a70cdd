// Numbers of a line: decimal counts, and doubles.
ghost use Rattle.std.specs.Prelude.{◌≡◌, ◌≤◌, ◌<◌, None, IfSome, drop, from_bits, to_bits};
ghost use Rattle.std.specs.Float.{binary64};
ghost use Rattle.cases.specs.Numbers.{digit_of, decimals, hexes_at, read_decimal, read_bits, at_most, byte_of};
ghost use Rattle.cases.specs.Doubles.{read_double, read_pattern};

use crate::text::decimals::read_written;
use crate::text::listings::rest;
use crate::text::words::{closed, skip_blanks};

// What was read, and the place behind it.
#[derive(Clone, Copy)]
pub(crate) struct Read<T> {
    pub at: usize,
    pub value: T,
}

// The digit below `base` that the byte is.
#[tactic(auto, unfolding(crate::specs::Numbers::digit_of))]
fn digit(b: u8, base: u64) -> Option<u64>
    requires { base ≤ 16 }
    ensures some { IfSome result (λ d. (d ≡ digit_of b) × (d < base)) }
    ensures none { result ≡ None → base ≤ digit_of b }
{
    let d = match b {
        b'0'..=b'9' => u64::from(b - b'0'),
        b'A'..=b'F' => u64::from(b - b'A' + 10),
        b'a'..=b'f' => u64::from(b - b'a' + 10),
        _ => return None,
    };
    (d < base).then_some(d)
}

// The decimal digits from `at` on, behind those of the number `head`, if all of them write a number of at most 64 bits.
#[tactic(auto, using(crate::proofs::Digits::decimals_on))]
pub(crate) fn digits_from(line: &[u8], at: usize, head: u64) -> Option<Read<u64>>
    ensures { result ≡ decimals head at (drop at line.now) }
{
    let line = rest(line, at);
    let mut value = head;
    for (n, b) in line.iter().enumerate() {
        let Some(d) = digit(*b, 10) else {
            return Some(Read { at: at + n, value });
        };
        value = value.checked_mul(10)?.checked_add(d)?;
    }
    Some(Read {
        at: at + line.len(),
        value,
    })
}

// The next word, a decimal number.
#[tactic(auto, unfolding(crate::specs::Numbers::read_decimal))]
pub(crate) fn read_decimal(line: &[u8], at: usize) -> Option<Read<u64>>
    ensures { result ≡ read_decimal line.now at }
{
    let from = skip_blanks(line, at);
    let n = digits_from(line, from, 0)?;
    if n.at == from {
        return None;
    }
    Some(Read {
        at: closed(line, n.at)?,
        value: n.value,
    })
}

// The next word, a decimal number of at most `most`.
pub(crate) fn read_at_most(line: &[u8], at: usize, most: usize) -> Option<Read<usize>>
    ensures is { result ≡ at_most most (read_decimal line.now at) }
    ensures small { IfSome result (λ n. n.value ≤ most) }
{
    let n = read_decimal(line, at)?;
    if n.value > most as u64 {
        return None;
    }
    Some(Read {
        at: n.at,
        value: n.value as usize,
    })
}

// The next word, a decimal number that a byte holds.
pub(crate) fn read_byte(line: &[u8], at: usize) -> Option<Read<u8>>
    ensures { result ≡ byte_of (read_decimal line.now at) }
{
    let n = read_at_most(line, at, 255)?;
    Some(Read {
        at: n.at,
        value: n.value as u8,
    })
}

// The next word, 0 or 1.
pub(crate) fn read_flag(line: &[u8], at: usize) -> Option<Read<bool>> {
    let n = read_at_most(line, at, 1)?;
    Some(Read {
        at: n.at,
        value: n.value == 1,
    })
}

// The number of exactly `count` hex digits from `at` on.
#[tactic(auto, using(crate::proofs::Digits::hexes_on))]
pub(crate) fn hex_digits(line: &[u8], at: usize, count: usize) -> Option<Read<u64>>
    ensures { result ≡ hexes_at line.now at count }
{
    let digits = rest(line, at).get(..count)?;
    let mut value: u64 = 0;
    for b in digits {
        let d = digit(*b, 16)?;
        value = value.checked_mul(16)?.checked_add(d)?;
    }
    Some(Read {
        at: at + count,
        value,
    })
}

// The double of a bit pattern. The logic has one NaN, for all of its patterns.
pub(crate) fn double_of(bits: u64) -> f64
    ensures { result ≡ from_bits binary64 bits }
{
    if bits % 0x8000_0000_0000_0000 > 0x7ff0_0000_0000_0000 {
        return f64::NAN;
    }
    f64::from_bits(bits)
}

// The bit pattern of a double, of a NaN the quiet one.
pub(crate) fn bits_of(x: f64) -> u64
    ensures { result ≡ to_bits binary64 x }
{
    if x.is_nan() {
        return 0x7ff8_0000_0000_0000;
    }
    f64::to_bits(x)
}

// The next word, a double's bits.
#[tactic(auto, unfolding(crate::specs::Numbers::read_bits))]
fn read_bits(line: &[u8], at: usize) -> Option<Read<u64>>
    ensures { result ≡ read_bits line.now at }
{
    let n = hex_digits(line, skip_blanks(line, at), 16)?;
    Some(Read {
        at: closed(line, n.at)?,
        value: n.value,
    })
}

// The next word, a double: by its bits, or as a decimal.
#[tactic(auto, unfolding(crate::specs::Doubles::read_double))]
pub(crate) fn read_double(line: &[u8], at: usize) -> Option<Read<f64>>
    ensures { result ≡ read_double line.now at }
{
    let Some(n) = read_bits(line, at) else {
        return read_written(line, at);
    };
    Some(Read {
        at: n.at,
        value: double_of(n.value),
    })
}

// The same, its bits.
#[tactic(auto, unfolding(crate::specs::Doubles::read_pattern))]
pub(crate) fn read_pattern(line: &[u8], at: usize) -> Option<Read<u64>>
    ensures { result ≡ read_pattern line.now at }
{
    let Some(n) = read_bits(line, at) else {
        let d = read_written(line, at)?;
        return Some(Read {
            at: d.at,
            value: bits_of(d.value),
        });
    };
    Some(n)
}

// Doubles of a line that are written as decimals: a sign or none, digits, and a point with more digits or none.
ghost use Rattle.std.specs.Prelude.{◌≡◌, ◌+◌, ◌-◌, ◌^◌, ◌<◌, ◌≤◌, false};
ghost use Rattle.std.specs.Float.{binary64};
ghost use Rattle.std.specs.Float.Ieee.{round};
ghost use Rattle.cases.specs.Decimals.{stands, decimal_at, signed_of, valued, read_written};

use crate::text::numbers::{Read, digits_from};
use crate::text::words::{closed, skip_blanks};

// The digits of a decimal: the number that they write, the point left out, how many stand before the point and how many
// behind it.
#[derive(Clone, Copy)]
struct Decimal {
    at: usize,
    digits: u64,
    whole: usize,
    scale: usize,
}

fn stands_at(line: &[u8], at: usize, b: u8) -> bool
    ensures { result ≡ stands line.now at b }
{
    at < line.len() && line[at] == b
}

// The decimal from `from` on, without its sign. Behind a point stands a digit.
#[tactic(auto, unfolding(crate::specs::Decimals::decimal_at))]
fn decimal_at(line: &[u8], from: usize) -> Option<Decimal>
    ensures { result ≡ decimal_at line.now from }
{
    let n = digits_from(line, from, 0)?;
    let whole = n.at.saturating_sub(from);
    if !stands_at(line, n.at, b'.') {
        return Some(Decimal {
            at: n.at,
            digits: n.value,
            whole,
            scale: 0,
        });
    }
    let first = n.at + 1;
    let all = digits_from(line, first, n.value)?;
    let scale = all.at.saturating_sub(first);
    if scale == 0 {
        return None;
    }
    Some(Decimal {
        at: all.at,
        digits: all.value,
        whole,
        scale,
    })
}

// The digits' number over ten to the number of those behind the point. Both are doubles as they stand, so that the division
// alone rounds.
fn quotient(digits: u64, scale: usize) -> f64
    requires fact_1 { digits ≤ 9007199254740992 }
    requires fact_2 { scale ≤ 15 }
    ensures { result ≡ round binary64 false digits (10 ^ scale) }
{
    std::num::nearest_u64_to_f64(digits) / std::num::nearest_u64_to_f64(10u64.pow(scale as u32))
}

fn signed(x: f64, negative: bool) -> f64
    ensures { result ≡ signed_of x negative }
{
    if negative { -x } else { x }
}

// The double that a decimal writes, if it has a digit before its point, at most 15 in all, and ends its word.
#[tactic(auto, unfolding(crate::specs::Decimals::valued))]
fn value_of(line: &[u8], negative: bool, d: Decimal) -> Option<Read<f64>>
    requires { d.digits < 10 ^ (d.whole + d.scale) }
    ensures { result ≡ valued line.now negative d }
{
    if d.whole == 0 || d.whole > 15 || d.scale > 15 - d.whole {
        return None;
    }
    Some(Read {
        at: closed(line, d.at)?,
        value: signed(quotient(d.digits, d.scale), negative),
    })
}

// The next word, a double that is written as a decimal. Built into its callers, what it reads stays in registers.
#[inline(always)]
#[tactic(auto, unfolding(crate::specs::Decimals::read_written))]
pub(crate) fn read_written(line: &[u8], at: usize) -> Option<Read<f64>>
    ensures { result ≡ read_written line.now at }
{
    let from = skip_blanks(line, at);
    let negative = stands_at(line, from, b'-');
    let first = if negative { from + 1 } else { from };
    value_of(line, negative, decimal_at(line, first)?)
}

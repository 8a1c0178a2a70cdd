// Lists of a line, read into a list that the caller lends: how many entries were read, and the place behind them. A list that
// is longer than that is not readable.
ghost use Rattle.std.specs.Prelude.{◌≡◌, take, drop};
ghost use Rattle.cases.specs.Text.{part_of};

use crate::text::numbers::{
    Read, hex_digits, read_at_most, read_byte, read_decimal, read_double, read_pattern,
};
use crate::text::words::{after, closed, skip_blanks};

// A word, a count, and that many entries, each read by `read`.
fn list_after<T: Copy, F: Fn(&[u8], usize) -> Option<Read<T>>>(
    line: &[u8],
    at: usize,
    word: &[u8],
    out: &mut [T],
    read: F,
) -> Option<Read<usize>>
    requires { F.IsAlwaysCallable read }
{
    let n = read_at_most(line, after(line, at, word)?, out.len())?;
    let mut place = n.at;
    for slot in out[..n.value].iter_mut() {
        let d = read(line, place)?;
        *slot = d.value;
        place = d.at;
    }
    Some(Read {
        at: place,
        value: n.value,
    })
}

pub(crate) fn doubles_after(
    line: &[u8],
    at: usize,
    word: &[u8],
    out: &mut [f64],
) -> Option<Read<usize>> {
    list_after(line, at, word, out, read_double)
}

// Doubles, their bits alone.
pub(crate) fn patterns_after(
    line: &[u8],
    at: usize,
    word: &[u8],
    out: &mut [u64],
) -> Option<Read<usize>> {
    list_after(line, at, word, out, read_pattern)
}

pub(crate) fn numbers_after(
    line: &[u8],
    at: usize,
    word: &[u8],
    out: &mut [u64],
) -> Option<Read<usize>> {
    list_after(line, at, word, out, read_decimal)
}

pub(crate) fn marks_after(
    line: &[u8],
    at: usize,
    word: &[u8],
    out: &mut [u8],
) -> Option<Read<usize>> {
    list_after(line, at, word, out, read_byte)
}

// The next word, bytes as hex pairs, or `-` for none.
pub(crate) fn read_bytes(line: &[u8], at: usize, out: &mut [u8]) -> Option<Read<usize>> {
    if let Some(at) = after(line, at, b"-") {
        return Some(Read { at, value: 0 });
    }
    let from = skip_blanks(line, at);
    if from >= line.len() {
        return None;
    }
    pairs(line, from, out)
}

// Hex pairs up to the word's end.
fn pairs(line: &[u8], at: usize, out: &mut [u8]) -> Option<Read<usize>> {
    let mut place = at;
    let mut count: usize = 0;
    for slot in out.iter_mut() {
        let Some(n) = hex_digits(line, place, 2) else {
            break;
        };
        *slot = (n.value % 256) as u8;
        place = n.at;
        count += 1;
    }
    Some(Read {
        at: closed(line, place)?,
        value: count,
    })
}

// The first `count` entries of a list, all of them if it has fewer.
pub(crate) fn first<T>(list: &[T], count: usize) -> &[T]
    ensures { result.now ≡ take count list.now }
{
    &list[..count.min(list.len())]
}

// The entries from the place `at` on, none if there are no such.
pub(crate) fn rest<T>(list: &[T], at: usize) -> &[T]
    ensures { result.now ≡ drop at list.now }
{
    &list[at.min(list.len())..]
}

// The bytes from `from` to `to`, none if there are no such.
pub(crate) fn part(list: &[u8], from: usize, to: usize) -> &[u8]
    ensures { result.now ≡ part_of list.now from to }
{
    list.get(from..to).unwrap_or(&[])
}

// `count` entries from the place `at` on, as many as there are.
pub(crate) fn part_from<T>(list: &[T], at: usize, count: usize) -> &[T] {
    first(rest(list, at), count)
}

// Copies a list over another from the place `at` on, as far as both go.
pub(crate) fn copy<T: Copy>(from: &[T], to: &mut [T], at: usize) {
    let at = at.min(to.len());
    for (slot, x) in to[at..].iter_mut().zip(from) {
        *slot = *x;
    }
}

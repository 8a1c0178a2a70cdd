// Which word of a line that could not be read is the first that stands in the way. The line is walked once more, word by
// word, by the shape of its call: a walk comes behind the words that can be read, or ends before the one where it is stuck.
mod named;

ghost use Rattle.std.specs.Prelude.{◌≤◌};

use crate::lines::calls::{Call, Change, Question, Slotted, call_of, slotted_of};
use crate::lines::limits::{BLOCKS, BYTES, ENDS, KNOTS, LISTED, NAME, SAMPLES, SLOTS, STARTS};
use crate::prepared;
use crate::text::{
    Read, after, is_end, read_at_most, read_byte, read_bytes, read_decimal, read_double, read_flag,
    skip_blanks, word_end,
};

// Hex pairs of at most so many bytes.
fn bytes_end<const MOST: usize>(line: &[u8], at: usize) -> Option<usize>
    requires { MOST ≤ 131072 }
{
    let mut bytes = [0u8; MOST];
    Some(read_bytes(line, at, &mut bytes)?.at)
}

fn double_end(line: &[u8], at: usize) -> Option<usize> {
    Some(read_double(line, at)?.at)
}

fn offset_end(line: &[u8], at: usize) -> Option<usize> {
    after(line, at, b"none").or_else(|| double_end(line, at))
}

fn name_end(line: &[u8], at: usize) -> Option<usize> {
    let from = skip_blanks(line, at);
    if from < line.len() {
        return Some(word_end(line, from));
    }
    None
}

fn number_end(line: &[u8], at: usize) -> Option<usize> {
    Some(read_decimal(line, at)?.at)
}

fn byte_end(line: &[u8], at: usize) -> Option<usize> {
    Some(read_byte(line, at)?.at)
}

fn flag_end(line: &[u8], at: usize) -> Option<usize> {
    Some(read_flag(line, at)?.at)
}

// The place that `end` finds behind the next word, if it can be read as such.
fn step<F: Fn(&[u8], usize) -> Option<usize>>(
    line: &[u8],
    at: usize,
    end: F,
) -> Result<usize, usize>
    requires { F.IsAlwaysCallable end }
{
    end(line, at).ok_or(at)
}

fn past(line: &[u8], at: usize, word: &[u8]) -> Result<usize, usize> {
    after(line, at, word).ok_or(at)
}

// A number of at most `most`.
fn at_most(line: &[u8], at: usize, most: usize) -> Result<Read<usize>, usize> {
    read_at_most(line, at, most).ok_or(at)
}

// A word, a count of at most `most`, and that many words.
fn list<F: Fn(&[u8], usize) -> Option<usize>>(
    line: &[u8],
    at: usize,
    word: &[u8],
    end: F,
    most: usize,
) -> Result<usize, usize>
    requires { F.IsAlwaysCallable end }
{
    let n = at_most(line, past(line, at, word)?, most)?;
    let mut at = n.at;
    for _ in 0..n.value {
        at = end(line, at).ok_or(at)?;
    }
    Ok(at)
}

// A number of slots, or nothing.
fn slots(line: &[u8], at: usize, most: usize) -> Result<usize, usize> {
    if is_end(line, at) {
        return Ok(at);
    }
    Ok(at_most(line, at, most)?.at)
}

fn filling(line: &[u8], at: usize) -> Result<usize, usize> {
    let at = past(line, at, b"def")?;
    let at = step(line, at, byte_end)?;
    let at = step(line, at, double_end)?;
    let at = past(line, at, b"flag")?;
    step(line, at, flag_end)
}

fn explicit(line: &[u8], at: usize) -> Result<usize, usize> {
    let at = step(line, at, number_end)?;
    let at = list(line, at, b"st", double_end, STARTS)?;
    let at = list(line, at, b"sc", double_end, STARTS)?;
    let at = list(line, at, b"kx", double_end, KNOTS)?;
    let at = list(line, at, b"ky", double_end, KNOTS)?;
    let at = list(line, at, b"bl", double_end, BLOCKS)?;
    filling(line, at)
}

fn template_numbers(line: &[u8], at: usize) -> Result<usize, usize> {
    let at = two_doubles(line, at)?;
    let at = step(line, at, double_end)?;
    step(line, at, offset_end)
}

fn template(line: &[u8], at: usize) -> Result<usize, usize> {
    let at = step(line, at, bytes_end::<BYTES>)?;
    let at = template_numbers(line, at)?;
    let at = list(line, at, b"bl", double_end, BLOCKS)?;
    filling(line, at)
}

fn two_doubles(line: &[u8], at: usize) -> Result<usize, usize> {
    let at = step(line, at, double_end)?;
    step(line, at, double_end)
}

fn changing(kind: Change, line: &[u8], at: usize) -> Result<usize, usize> {
    match kind {
        Change::Explicit => explicit(line, at),
        Change::Template => template(line, at),
        Change::Retime => two_doubles(line, at),
    }
}

// Times, values and marks.
fn samples(line: &[u8], at: usize, most: usize) -> Result<usize, usize> {
    let at = list(line, at, b"t", double_end, most)?;
    let at = list(line, at, b"v", double_end, most)?;
    list(line, at, b"m", byte_end, most)
}

fn asking(kind: Question, line: &[u8], at: usize) -> Result<usize, usize> {
    match kind {
        Question::Value(_) | Question::Active | Question::ClipTime => { step(line, at, double_end) }
        Question::Name => {
            let at = step(line, at, bytes_end::<BYTES>)?;
            slots(line, step(line, at, double_end)?, BYTES)
        }
        Question::Normalize => slots(line, samples(line, at, SAMPLES)?, SLOTS),
        Question::ClipTimes => slots(line, template_numbers(line, at)?, SLOTS),
        Question::CompareKeys => two_doubles(line, at),
        Question::Times | Question::StageSamples | Question::Track => slots(line, at, SLOTS),
        Question::Dump | Question::Untimed | Question::TrackHash => Ok(at),
    }
}

// No call's word, unless it is a case whose name is not one word.
fn unknown(line: &[u8]) -> Result<usize, usize> {
    let at = past(line, 0, b"case")?;
    step(line, at, name_end)
}

fn slot(line: &[u8], at: usize) -> Result<usize, usize> {
    Ok(at_most(line, at, prepared::COUNT - 1)?.at)
}

// A slot, and an acceptance's word and fields.
fn examine(line: &[u8], at: usize) -> Result<usize, usize> {
    let at = slot(line, at)?;
    if let Some(fields) = after(line, at, b"explicit") {
        return explicit(line, fields);
    }
    template(line, past(line, at, b"template")?)
}

fn called(line: &[u8]) -> Result<usize, usize> {
    match call_of(line) {
        Call::Nothing => Ok(0),
        Call::Unreadable => unknown(line),
        Call::Case(at) => step(line, at, name_end),
        Call::Samples(at) => samples(line, list(line, at, b"ends", number_end, ENDS)?, SAMPLES),
        Call::Order(at) => named::order(line, at),
        Call::Parted(at) => named::parted(line, at),
        Call::Changing(kind, at) => changing(kind, line, at),
        Call::Asking(kind, at) => asking(kind, line, at),
    }
}

// How far the line can be read: the place behind what can, or the place where it is stuck.
pub(crate) fn walked(line: &[u8]) -> Result<usize, usize> {
    match slotted_of(line) {
        Some(Slotted::Examine(at)) => examine(line, at),
        Some(Slotted::Prepared(at)) | Some(Slotted::Install(at)) => slot(line, at),
        None => named::changing(line),
    }
}

// The walk of a line that calls the dispatcher, or lends what its questions look at.
use crate::lines::fault::{
    bytes_end, called, double_end, explicit, flag_end, list, number_end, past, samples, slot,
    slots, step, template, two_doubles,
};
use crate::lines::limits::{COUNTS, LISTED, NAME, ORDER, PARTED, PARTED_ENDS, SLOTS};
use crate::lines::named_calls::{NamedChange, NamedQuestion, change_of, question_of};
use crate::text::after;

// A name, and whether its set declares.
fn naming(line: &[u8], at: usize) -> Result<usize, usize> {
    let at = step(line, at, bytes_end::<NAME>)?;
    step(line, at, flag_end)
}

pub(super) fn order(line: &[u8], at: usize) -> Result<usize, usize> {
    if let Some(absent) = after(line, at, b"none") {
        return Ok(absent);
    }
    let at = list(line, at, b"ends", number_end, ORDER)?;
    let at = past(line, at, b"bytes")?;
    step(line, at, bytes_end::<LISTED>)
}

pub(super) fn parted(line: &[u8], at: usize) -> Result<usize, usize> {
    let at = list(line, at, b"counts", number_end, COUNTS)?;
    let at = list(line, at, b"ends", number_end, PARTED_ENDS)?;
    samples(line, at, PARTED)
}

fn asking(line: &[u8]) -> Result<usize, usize> {
    match question_of(line) {
        Some(NamedQuestion::Value(_, at)) => step(line, at, double_end),
        Some(NamedQuestion::Track(at)) => slots(line, at, SLOTS),
        Some(NamedQuestion::Sets(at)) => Ok(at),
        Some(NamedQuestion::Dump(at)) => step(line, at, bytes_end::<NAME>),
        None => called(line),
    }
}

// How far the line can be read.
pub(super) fn changing(line: &[u8]) -> Result<usize, usize> {
    match change_of(line) {
        Some(NamedChange::Explicit(at)) => explicit(line, naming(line, at)?),
        Some(NamedChange::Template(at)) => template(line, naming(line, at)?),
        Some(NamedChange::Retime(at)) => two_doubles(line, step(line, at, bytes_end::<NAME>)?),
        Some(NamedChange::Install(at)) => slot(line, naming(line, at)?),
        None => asking(line),
    }
}

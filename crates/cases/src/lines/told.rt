// What is told on standard error: each line that could not be read, and why.
use crate::lines::fault;
use crate::lines::limits::LINE;
use crate::text::{first, is_end, word};
use std::io::Stderr;

// How much of a word is shown.
const SHOWN: usize = 60;

// A write that fails is passed over.
fn put(to: Stderr, text: &[u8]) {
    let _ = to.write_all(text);
}

fn put_decimal(to: Stderr, number: u64) {
    let _ = to.print(number);
}

fn begin(to: Stderr, number: u64) {
    put(to, b"cases: line ");
    put_decimal(to, number);
}

// A byte of printable ASCII as it stands.
fn printable(b: u8) -> u8 {
    if b == b' ' || b.is_ascii_graphic() {
        b
    } else {
        b'?'
    }
}

// The first bytes of a word.
fn quoted(to: Stderr, word: &[u8]) {
    let mut shown = [0u8; SHOWN];
    for (slot, b) in shown.iter_mut().zip(word) {
        *slot = printable(*b);
    }
    put(to, first(&shown, word.len()));
    if word.len() > SHOWN {
        put(to, b"..");
    }
}

fn word_of(to: Stderr, line: &[u8], at: usize) {
    let word = word(line, at);
    if word.is_empty() {
        put(to, b": a word is missing\n");
        return;
    }
    put(to, b": cannot read '");
    quoted(to, word);
    put(to, b"'\n");
}

// The line of this number could not be read: its first word that stands in the way. A walk that finds none is told too.
pub(crate) fn unreadable(to: Stderr, number: u64, line: &[u8]) {
    begin(to, number);
    match fault::walked(line) {
        Ok(at) if is_end(line, at) => put(to, b": cannot be read\n"),
        Ok(at) | Err(at) => word_of(to, line, at),
    }
}

// The line of this number is longer than the buffer.
pub(crate) fn too_long(to: Stderr, number: u64) {
    begin(to, number);
    put(to, b": longer than ");
    put_decimal(to, (LINE - 1) as u64);
    put(to, b" bytes\n");
}

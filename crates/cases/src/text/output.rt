// Replies, gathered in a buffer and written in large pieces.
ghost use Rattle.std.specs.Prelude.{◌<◌, ◌≤◌};

use itoa::Buffer;
use std::io::{Stderr, Stdout};

const ROOM: usize = 65536;

const DIGITS: [u8; 16] = *b"0123456789abcdef";

// The buffer and how much of it is full, where it is written to, and where the lines that cannot be read are told.
#[derive(Drop)]
pub(crate) struct Replies {
    bytes: [u8; ROOM],
    full: usize,
    to: Stdout,
    pub told: Stderr,
    ghost within: { full ≤ 65536 },
}

// A hex digit.
fn glyph(d: u8) -> u8 {
    DIGITS[(d % 16) as usize]
}

impl Replies {
    pub(crate) fn new(to: Stdout, told: Stderr) -> Replies {
        Replies {
            bytes: [0; ROOM],
            full: 0,
            to,
            told,
        }
    }

    // Writes the full part of the buffer. A write that fails is passed over.
    pub(crate) fn flush(&mut self) {
        let _ = self.to.write_all(&self.bytes[..self.full]);
        self.full = 0;
    }

    // The place of the next byte. A full buffer is written first.
    fn room(&mut self) -> usize
        ensures { result < 65536 }
    {
        if self.full < ROOM {
            return self.full;
        }
        self.flush();
        0
    }

    pub(crate) fn put_byte(&mut self, b: u8) {
        let at = self.room();
        self.bytes[at] = b;
        self.full = at + 1;
    }

    // In one piece where there is room for it.
    pub(crate) fn put(&mut self, text: &[u8]) {
        let from = self.full;
        if text.len() <= ROOM - from {
            self.bytes[from..from + text.len()].copy_from_slice(text);
            self.full = from + text.len();
            return;
        }
        for b in text {
            self.put_byte(*b);
        }
    }

    pub(crate) fn put_decimal(&mut self, value: u64) {
        let mut text = Buffer::new();
        self.put(text.format(value).as_bytes());
    }

    // The bits of a number, as 16 hex digits.
    pub(crate) fn put_bits(&mut self, value: u64) {
        let mut digits = [0u8; 16];
        for (i, b) in value.to_be_bytes().iter().enumerate() {
            digits[2 * i] = glyph(*b / 16);
            digits[2 * i + 1] = glyph(*b);
        }
        self.put(&digits);
    }

    // Bytes as hex pairs, `-` for none.
    pub(crate) fn put_bytes(&mut self, text: &[u8]) {
        if text.is_empty() {
            self.put_byte(b'-');
        }
        for b in text {
            self.put_pair(*b);
        }
    }

    fn put_pair(&mut self, b: u8) {
        self.put_byte(glyph(b / 16));
        self.put_byte(glyph(b));
    }
}

// Standard input as lines, in one buffer: its bytes from `from` to `end` are still to be answered.
ghost use Rattle.std.specs.Prelude.{◌≡◌, ◌≤◌, length};

use crate::text::{Stop, first, part, scan, without_comment};
use std::io::{Read, Stdin};

#[derive(Clone, Copy)]
pub(crate) struct Buffer {
    pub from: usize,
    pub end: usize,
    // Inside a line that is longer than the buffer: what is left of it is passed over.
    pub skips: bool,
    pub ended: bool,
}

pub(crate) fn empty() -> Buffer {
    Buffer {
        from: 0,
        end: 0,
        skips: false,
        ended: false,
    }
}

// The place of the next line end, `end` or beyond if there is none.
pub(crate) fn line_end(input: &[u8], buffer: Buffer) -> usize {
    scan(first(input, buffer.end), buffer.from, Stop::LineEnd)
}

// The line up to `to`, without its comment; empty where the end of a skipped line stands there.
pub(crate) fn line(input: &[u8], buffer: Buffer, to: usize) -> &[u8] {
    let from = buffer.from;
    if buffer.skips {
        return &input[0..0];
    }
    without_comment(part(input, from, to))
}

// The line that ends at `to` is answered.
pub(crate) fn past(buffer: Buffer, to: usize) -> Buffer {
    if to < buffer.end {
        return Buffer {
            from: to + 1,
            end: buffer.end,
            skips: false,
            ended: buffer.ended,
        };
    }
    buffer
}

// Moves the bytes from `from` to `end` to the front, and says how many they are.
fn to_front(input: &mut [u8], from: usize, end: usize) -> usize
    ensures { length input.new ≡ length input.old }
{
    let end = end.min(input.len());
    if end < from {
        return 0;
    }
    input.copy_within(from..end, 0);
    end - from
}

// Reads at most as much as there is room for, and says how much: nothing at the input's end, and where a read fails, which ends it.
fn read(from: Stdin, room: &mut [u8]) -> usize
    ensures { result ≤ length room.new }
{
    let mut from = from;
    from.read(room).unwrap_or(0)
}

// Reads more behind the first `kept` bytes. Where the input ends, its last line gets an end.
fn read_behind(from: Stdin, input: &mut [u8], kept: usize, skips: bool) -> Buffer {
    if kept >= input.len() {
        return Buffer {
            from: 0,
            end: 0,
            skips,
            ended: true,
        };
    }
    let n = read(from, &mut input[kept..]);
    if n == 0 {
        input[kept] = b'\n';
        return Buffer {
            from: 0,
            end: kept + 1,
            skips,
            ended: true,
        };
    }
    Buffer {
        from: 0,
        end: kept + n,
        skips,
        ended: false,
    }
}

// No line end is left in the buffer: keeps the line that has begun, unless it fills the buffer, and reads more.
pub(crate) fn refill(from: Stdin, input: &mut [u8], buffer: Buffer) -> Buffer {
    if buffer.skips {
        return read_behind(from, input, 0, true);
    }
    let kept = to_front(input, buffer.from, buffer.end);
    if kept >= input.len() {
        return read_behind(from, input, 0, true);
    }
    read_behind(from, input, kept, false)
}

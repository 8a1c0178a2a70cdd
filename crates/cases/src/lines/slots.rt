// How much of the lent output lists a question may use.
use crate::text::{Read, is_end, read_at_most};

// The line's last word, at most `most`, or `room` if the line has no more words.
pub(crate) fn slots(line: &[u8], at: usize, room: usize, most: usize) -> Option<Read<usize>> {
    if is_end(line, at) {
        return Some(Read { at, value: room });
    }
    read_at_most(line, at, most)
}

// The case text: the words, numbers and lists of a line, and the replies. Nothing here asks anything of its caller.
mod decimals;
mod listings;
mod numbers;
mod output;
mod words;

pub(crate) use listings::{
    copy, doubles_after, first, marks_after, numbers_after, part, part_from, patterns_after,
    read_bytes,
};
pub(crate) use numbers::{
    Read, bits_of, double_of, read_at_most, read_byte, read_decimal, read_double, read_flag,
    read_pattern,
};
pub(crate) use output::Replies;
pub(crate) use words::{
    Stop, after, ended, is_end, scan, skip_blanks, without_comment, word, word_end,
};

// How much of a line the program holds: more than a set may have, so that too much can be asked for.

// Bytes, the line's end with them.
pub(crate) const LINE: usize = 524288;

pub(crate) const STARTS: usize = 320;

pub(crate) const KNOTS: usize = 640;

pub(crate) const BLOCKS: usize = 320;

pub(crate) const ENDS: usize = 512;

pub(crate) const SAMPLES: usize = 5120;

pub(crate) const BYTES: usize = 512;

// A set's name, in bytes.
pub(crate) const NAME: usize = 300;

// An order list: its names, and the bytes of all of them.
pub(crate) const ORDER: usize = 300;

pub(crate) const LISTED: usize = 66000;

// The samples of the dispatcher's sets: a count for each set, and of all sets the clip ends and the samples.
pub(crate) const COUNTS: usize = 20;

pub(crate) const PARTED_ENDS: usize = 2000;

pub(crate) const PARTED: usize = 9000;

// Entries of each list that a question may fill.
pub(crate) const SLOTS: usize = 65536;

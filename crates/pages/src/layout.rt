// Where a set's part of each list is. Of the lists with entries it has a page; in the others it has the i-th place from a constant on.

// Entries of a page: of starts, clip numbers and blocks, and of knots.
pub const PAGE: usize = 256;

pub const KNOT_PAGE: usize = 512;

// Of `counts`, behind the number of sets: clips, starts, knots and blocks of each set, then the sets' numbers by name.
pub const CLIPS: usize = 1;

pub const STARTS: usize = 17;

pub const KNOTS: usize = 33;

pub const BLOCKS: usize = 49;

pub const BY_NAME: usize = 65;

// Of `bytes`, behind a page for each name: the default's mark, whether missing values are interpolated, whether the set declares.
pub const MARKS: usize = 4096;

pub const FLAGS: usize = 4112;

pub const DECLARES: usize = 4128;

// The lists' sizes, for 16 sets.
pub const ENTRIES: usize = 4096;

pub const KNOT_ENTRIES: usize = 8192;

pub const DEFAULTS: usize = 16;

pub const COUNTS: usize = 81;

pub const BYTES: usize = 4144;

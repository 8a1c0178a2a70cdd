// How the lists are laid out that hold what a case lends, and those that hold the dispatcher's sets.
//
// What is lent stands in four lists, that for the resolver's questions first. `ends` has the samples' clip ends, then for the dispatcher those of its sets, the
// counts and the order list's name ends; `times` and `values` have the two kinds of samples; `marks` has theirs and the order list's bytes.
use crate::lines::limits::{COUNTS, ENDS, LISTED, ORDER, PARTED, PARTED_ENDS, SAMPLES};
use pages::layout;

pub(crate) const COUNTS_AT: usize = ENDS + PARTED_ENDS;

pub(crate) const NAME_ENDS_AT: usize = COUNTS_AT + COUNTS;

pub(crate) const ALL_ENDS: usize = NAME_ENDS_AT + ORDER;

pub(crate) const ALL_SAMPLES: usize = SAMPLES + PARTED;

pub(crate) const ALL_MARKS: usize = ALL_SAMPLES + LISTED;

// The dispatcher's lists.
pub(crate) const ENTRIES: usize = layout::ENTRIES;

pub(crate) const KNOT_ENTRIES: usize = layout::KNOT_ENTRIES;

pub(crate) const DEFAULTS: usize = layout::DEFAULTS;

pub(crate) const SHAPES: usize = layout::COUNTS;

pub(crate) const NAMES: usize = layout::BYTES;

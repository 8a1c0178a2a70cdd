// How much a dispatcher and an order list may hold.

#![tactic(auto)]

pub const SETS: usize = 16;

pub const NAME_BYTES: usize = 255;

pub const LISTED: usize = 255;

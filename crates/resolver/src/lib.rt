// A resolver holds one clip set, or none. Here is its state, what each operation promises of it, and what follows for any list of calls.

#![tactic(auto)]

use definitions::Missing;
use standing::{Counts, StandingSet};

#[repr(C)]
#[derive(Clone, Copy)]
pub struct Resolver {
    pub stands: bool,
    pub set: StandingSet,
}

// What of a resolver is no list.
#[repr(C)]
#[derive(Clone, Copy)]
pub struct Shape {
    pub stands: bool,
    pub clips: u64,
    pub counts: Counts,
    pub manifest: Missing,
}

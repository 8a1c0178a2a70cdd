// The track of a set's value: the walk over its changes, the bake, and the held reading.

#![tactic(auto)]

// The value at a key.
pub mod entry;
// The walk.
pub mod fill;
// The changes counted.
pub mod count;
// The bake.
pub mod bake;
// The held reading.
pub mod held;
pub mod span;

// The value of a set at a stage time: the window as it is handed on, the value, and the answer without a time.

#![tactic(auto)]

pub mod direct;
pub mod jump;
pub mod untimed;
pub mod value;
pub mod windowed;

// The sheet: a file of steps bodies, written into a buffer body by body. A sheet is empty, open or closed, and each
// state is a type of its own, so that a body can be put on an open sheet alone.
#![tactic(auto)]

pub mod closed;
pub mod empty;
pub mod open;
pub mod refusal;
pub mod states;
mod write;

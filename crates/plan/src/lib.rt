// Plans a list of operations: the earliest of the shortest, fetched by halves.
#![tactic(auto)]

pub mod fetch;
pub mod lowest;
pub mod planning;

// Pairs: two plants run as one.
#![tactic(auto)]

pub mod pair;

// Measuring and planning on a bench, a track or a pair of benches that bodies of a file describe, for callers in C that
// lend the records and the index.
#![tactic(auto)]

pub mod measuring;
pub mod planning;

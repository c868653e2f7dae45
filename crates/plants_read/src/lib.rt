// Benches and tracks made of the bodies that describe them.
#![tactic(auto)]

pub mod bench_read;
pub mod track_read;

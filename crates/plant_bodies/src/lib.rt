// The bodies of benches and tracks in a file: which fault comes first.
#![tactic(auto)]

pub mod bench_body;
pub mod rows;
pub mod track_body;

// The bodies of benches and tracks taken apart: numbers of positions and interlocks, stations and links.
#![tactic(auto)]

pub mod bench_parts;
mod bytes;
pub mod track_parts;

// Valve benches: up to twelve valves of two to four positions each, with interlocks between them.
#![tactic(auto)]

pub mod bench;
pub mod check;
pub mod fault;
pub mod interlock;

// The bodies of the entries of a file: what each kind has to keep, which fault comes first, and what a body says.
#![tactic(auto)]

pub mod job;
pub mod steps;
pub mod steps_body;

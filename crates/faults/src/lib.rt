// What is wrong with a file: faults of the file, its contents, a body or a sheet, each with its layer, number and byte.
#![tactic(auto)]

pub mod fault;
mod shown;
pub mod told;

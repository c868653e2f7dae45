// Files: read as entries, each a part of the file with its place, or refused with the first fault.
#![tactic(auto)]

mod bodies_of;
mod body;
pub mod entries;
pub mod entry;
pub mod file;
pub mod kind;
pub mod open;
pub mod read;
mod row;
mod rows;

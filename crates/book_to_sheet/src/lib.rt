// From book to sheet: every job of a book planned, and the sheet of the answers written; also for callers in C.
#![tactic(auto)]

mod answer;
pub mod call;
mod entries;
mod fill;
mod jobs;
mod list;
mod workspace;

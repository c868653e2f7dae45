// From a book to its sheet: what the sheet of a book is, with an example.
#![tactic(auto)]

pub mod example;

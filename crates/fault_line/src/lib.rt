// The line that tells a fault: the word fault, layer, number and byte, with single blanks and a line feed.
#![tactic(auto)]

pub mod line;
pub mod tell;

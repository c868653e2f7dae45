// Tracks: plants of stations that are joined by links.
#![tactic(auto)]

pub mod link;
pub mod track;

// Plants: what every search and every sequencer is proved over, and the refusals that calls give.
#![tactic(auto)]

pub mod follow;
pub mod plant;
pub mod refusal;

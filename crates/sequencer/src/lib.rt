// The sequencer: made over any plant, it keeps a setting, tags of its own and the list in hand.
#![tactic(auto)]

pub mod sequencer;

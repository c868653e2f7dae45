// The search of one leg, layer by layer, in a workspace of records that the caller lends.
#![tactic(auto)]

pub mod chains;
pub mod clear;
pub mod fill;
pub mod leg_search;
pub mod lookup;
pub mod marks;
pub mod moves;
pub mod one_leg;
pub mod overfull;
pub mod record;
pub mod search;
pub mod sizes;
pub mod task;
pub mod walk;

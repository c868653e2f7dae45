// Tagged plants: a plant below with some operations taken out.
#![tactic(auto)]

pub mod tagged;

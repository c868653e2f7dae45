// Sequencers on examples, run as tests. They stand in a crate of their own, since a crate with tests is proved twice.
#![tactic(auto)]

#[cfg(test)]
mod endings;
#[cfg(test)]
mod lists;
#[cfg(test)]
mod plants;
#[cfg(test)]
mod refusals;
#[cfg(test)]
mod samples;

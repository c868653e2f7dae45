// Worked examples of every kind of plant, run as tests. They stand in a crate of their own, since a crate with tests is
// proved twice.
#![tactic(auto)]

#[cfg(test)]
mod bench_data;
#[cfg(test)]
mod benches;
#[cfg(test)]
mod pairs;
#[cfg(test)]
mod samples;
#[cfg(test)]
mod tags;
#[cfg(test)]
mod tracks;

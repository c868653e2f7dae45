// Tests of measure and plan on small benches and tracks.
#![tactic(auto)]

#[cfg(test)]
mod asks;
#[cfg(test)]
mod bench_a;
#[cfg(test)]
mod indexes;
mod place;
#[cfg(test)]
mod records;
mod unguided;
#[cfg(test)]
mod ways;

// The plants of the tests, and checks of any plant against a table.
use pair::pair::Pair;
use plant::plant::Plant;
use sample_plants::{bench_a, ring_with_spur};
use std::process::Abort;
use std::test::Fail;
use track::link::Link;
use track::track::Track;
use valves::bench::Bench;
use valves::interlock::Interlock;

pub(crate) fn lock(valve: u8, position: u8, other: u8, stands: u8) -> Interlock {
    Interlock {
        valve,
        position,
        other,
        stands,
    }
}

pub(crate) fn bench_of(positions: &[u8], interlocks: &[Interlock]) -> Result<Bench, Fail> {
    Ok(Bench::new(positions, interlocks)?)
}

// Twelve valves of four positions: 16,777,216 settings, the most that a plant has.
pub(crate) fn largest_bench() -> Result<Bench, Fail> {
    bench_of(&[4; 12], &[])
}

pub(crate) fn link(one: u16, other: u16) -> Link {
    Link { one, other }
}

pub(crate) fn track_of(stations: u16, links: &[Link]) -> Result<Track, Fail> {
    Ok(Track::new(stations, links)?)
}

// Stations without a link.
pub(crate) fn yard(stations: u16) -> Result<Track, Fail> {
    track_of(stations, &[])
}

// Bench A, with the ring beside it: 30 settings, and operations 0 to 3 of the bench and 4 to 8 of the ring.
pub(crate) fn bench_and_ring() -> Pair<Bench, Track> {
    Pair::new(bench_a(), ring_with_spur())
}

// A setting, an operation, and where it leads.
pub type Row = (u32, u16, Option<u32>);

pub(crate) fn check_steps<P: Plant>(rt: &impl Abort, plant: &P, rows: &[Row]) {
    for &(setting, operation, to) in rows {
        assert_eq!(rt;
            plant.step(setting, operation),
            to,
            "setting {setting}, operation {operation}"
        );
    }
}

// Two settings and their estimate.
pub(crate) fn check_estimates<P: Plant>(rt: &impl Abort, plant: &P, rows: &[(u32, u32, u16)]) {
    for &(from, to, estimate) in rows {
        assert_eq!(rt; plant.estimate(from, to), estimate, "from {from} to {to}");
    }
}

// An operation and its reverse.
pub(crate) fn check_reverses<P: Plant>(rt: &impl Abort, plant: &P, rows: &[(u16, u16)]) {
    for &(operation, back) in rows {
        assert_eq!(rt; plant.reverse(operation), back, "operation {operation}");
    }
}

// The numbers of settings and operations.
pub(crate) fn check_size<P: Plant>(rt: &impl Abort, plant: &P, settings: u32, operations: u16) {
    assert_eq!(rt; plant.settings(), settings);
    assert_eq!(rt; plant.operations(), operations);
}

// Examples of a plant: its size, and rows of steps, reverses and estimates.
#[derive(Clone, Copy)]
pub struct Examples<'a> {
    pub settings: u32,
    pub operations: u16,
    pub steps: &'a [Row],
    pub reverses: &'a [(u16, u16)],
    pub estimates: &'a [(u32, u32, u16)],
}

pub(crate) fn check_examples<P: Plant>(rt: &impl Abort, plant: &P, examples: Examples<'_>) {
    check_size(rt, plant, examples.settings, examples.operations);
    check_steps(rt, plant, examples.steps);
    check_reverses(rt, plant, examples.reverses);
    check_estimates(rt, plant, examples.estimates);
}

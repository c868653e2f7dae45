// Plants of the tests, and answers as plain numbers: what was found with the settings expanded, or the refusal's number.
// Stays: numbers for refusals, since the tests hold the calls to the numbers that users see.
use legs::leg::Leg;
use legs::relayed::Relayed;
use measure::{Measured, measure};
use plan::planning::{Planned, plan};
use plant::plant::Plant;
use plant::refusal::Refusal;
use std::test::Fail;
use track::link::Link;
use track::track::Track;
use valves::bench::Bench;
use valves::interlock::Interlock;

pub(crate) fn bench(positions: &[u8], lock: Interlock) -> Result<Bench, Fail> {
    Ok(Bench::new(positions, &[lock])?)
}

pub(crate) fn track(stations: u16, links: &[Link]) -> Result<Track, Fail> {
    Ok(Track::new(stations, links)?)
}

pub(crate) fn leg(start: u32, target: u32, bound: u16) -> Leg {
    Leg {
        start,
        target,
        bound,
    }
}

// A record that no call leaves.
pub(crate) fn used() -> Relayed {
    Relayed {
        setting: 77,
        relay: 78,
    }
}

pub(crate) fn measured(answer: Result<Measured, Refusal>) -> Result<(u16, u64), u8> {
    answer
        .map(|measured| (measured.length, measured.expanded))
        .map_err(|refusal| refusal.code())
}

pub(crate) fn planned(answer: Result<Planned, Refusal>) -> Result<(u16, u64), u8> {
    answer
        .map(|planned| (planned.length, planned.count))
        .map_err(|refusal| refusal.code())
}

pub(crate) fn measure_in<P: Plant>(
    plant: &P,
    leg: Leg,
    records: &mut [u32],
) -> Result<(u16, u64), u8> {
    measured(measure(plant, leg, records, &mut []))
}

pub(crate) fn plan_in<P: Plant>(
    plant: &P,
    leg: Leg,
    records: &mut [Relayed],
    place: &mut [u16; 255],
) -> Result<(u16, u64), u8> {
    planned(plan(plant, leg, records, &mut [], place))
}

// With that many records, at most eight.
pub(crate) fn ask_measure<P: Plant>(plant: &P, leg: Leg, count: usize) -> Result<(u16, u64), u8> {
    let mut records = [77u32; 8];
    measure_in(plant, leg, &mut records[..count.min(8)])
}

pub(crate) fn ask_plan<P: Plant>(
    plant: &P,
    leg: Leg,
    count: usize,
    place: &mut [u16; 255],
) -> Result<(u16, u64), u8> {
    let mut records = [used(); 8];
    plan_in(plant, leg, &mut records[..count.min(8)], place)
}

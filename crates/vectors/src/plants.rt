// The plant of a vector, made and tagged, and the vector checked over it.
use crate::compare::{compare_measure, compare_plan};
use crate::difference::Difference;
use crate::lending::{ALL, Lending};
use crate::vector::{Description, Vector};
use anyhow::anyhow;
use pair::pair::Pair;
use plant::plant::Plant;
use std::alloc::Global;
use tagged::tagged::Tagged;
use track::track::Track;
use valves::bench::Bench;

// Stations without a link. Beside them a plant has the same legs and far more settings, so that an index for chains has
// fewer numbers than one for marks.
const IDLE: u16 = 480;

// What differs first, if anything does: on the plant as it is, and beside idle stations.
pub(crate) fn check(heap: Global, vector: &Vector) -> anyhow::Result<Option<Difference>> {
    let alone = check_beside(heap, vector, 0)?;
    if alone.is_some() {
        return Ok(alone);
    }
    check_beside(heap, vector, IDLE)
}

fn check_beside(heap: Global, vector: &Vector, idle: u16) -> anyhow::Result<Option<Difference>> {
    let stations = vector.description.stations.saturating_add(idle);
    if stations == 0 {
        let mut plant = Tagged::new(bench(&vector.description)?);
        return check_on(heap, &mut plant, vector);
    }
    if vector.description.positions.is_empty() {
        let mut plant = Tagged::new(track(&vector.description, stations)?);
        return check_on(heap, &mut plant, vector);
    }
    let mut plant = Tagged::new(Pair::new(
        bench(&vector.description)?,
        track(&vector.description, stations)?,
    ));
    check_on(heap, &mut plant, vector)
}

fn bench(description: &Description) -> anyhow::Result<Bench> {
    Bench::new(&description.positions, &description.interlocks).map_err(|_| anyhow!(
        "the bench of a vector is not made"
    ))
}

fn track(description: &Description, stations: u16) -> anyhow::Result<Track> {
    Track::new(stations, &description.links).map_err(|_| anyhow!(
        "the track of a vector is not made"
    ))
}

fn check_on<P: Plant>(
    heap: Global,
    plant: &mut Tagged<P>,
    vector: &Vector,
) -> anyhow::Result<Option<Difference>> {
    for operation in &vector.description.tags {
        if plant.tag(*operation).is_err() {
            return Ok(Some(Difference::Tag));
        }
    }
    for lending in ALL {
        let difference = compare(heap, plant, vector, lending)?;
        if difference.is_some() {
            return Ok(difference);
        }
    }
    Ok(None)
}

fn compare<P: Plant>(
    heap: Global,
    plant: &Tagged<P>,
    vector: &Vector,
    lending: Lending,
) -> anyhow::Result<Option<Difference>> {
    let measured = compare_measure(heap, plant, vector.leg, &vector.expected, lending)?;
    if measured.is_some() {
        return Ok(measured);
    }
    compare_plan(heap, plant, vector.leg, &vector.expected, lending)
}

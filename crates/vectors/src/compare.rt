// Measure and plan held to what is expected, with just the records needed and with one fewer, and with an index of so
// many numbers as a way of looking up asks for.
use crate::difference::Difference;
use crate::lending::Lending;
use crate::vector::Expected;
use anyhow::Context;
use legs::leg::Leg;
use legs::relayed::Relayed;
use measure::{Measured, measure};
use plan::planning::{Planned, plan};
use plant::plant::Plant;
use plant::refusal::Refusal;
use std::alloc::Global;
use tagged::tagged::Tagged;

// What an index holds at first does not matter: these numbers are places of records.
const HELD: u32 = 2;

// Stays: an option, since what differs first is the answer, and no failure of the program.
pub(crate) fn compare_measure<P: Plant>(
    heap: Global,
    plant: &Tagged<P>,
    leg: Leg,
    expected: &Expected,
    lending: Lending,
) -> anyhow::Result<Option<Difference>> {
    let short = measure_with(heap, plant, leg, fewer(expected.need)?, lending)?;
    if !matches!(short, Err(Refusal::Overfull)) {
        return Ok(Some(Difference::Need));
    }
    let answer = measure_with(heap, plant, leg, expected.need, lending)?;
    Ok(judge_measure(answer, expected))
}

pub(crate) fn compare_plan<P: Plant>(
    heap: Global,
    plant: &Tagged<P>,
    leg: Leg,
    expected: &Expected,
    lending: Lending,
) -> anyhow::Result<Option<Difference>> {
    let mut place = [0u16; 255];
    let short = plan_with(heap, plant, leg, fewer(expected.most)?, lending, &mut place)?;
    if !matches!(short, Err(Refusal::Overfull)) {
        return Ok(Some(Difference::Most));
    }
    let answer = plan_with(heap, plant, leg, expected.most, lending, &mut place)?;
    Ok(judge_plan(answer, &place, expected))
}

fn fewer(records: usize) -> anyhow::Result<usize> {
    records
        .checked_sub(1)
        .context("a vector says that no record is needed")
}

fn measure_with<P: Plant>(
    heap: Global,
    plant: &Tagged<P>,
    leg: Leg,
    count: usize,
    lending: Lending,
) -> anyhow::Result<Result<Measured, Refusal>> {
    let mut records = vec![in heap; 0u32; count]?;
    let mut index = vec![in heap; HELD; lending.numbers(count, plant.settings())]?;
    Ok(measure(plant, leg, &mut records, &mut index))
}

fn plan_with<P: Plant>(
    heap: Global,
    plant: &Tagged<P>,
    leg: Leg,
    count: usize,
    lending: Lending,
    place: &mut [u16; 255],
) -> anyhow::Result<Result<Planned, Refusal>> {
    let mut records = vec![in heap; Relayed::default(); count]?;
    let mut index = vec![in heap; HELD; lending.numbers(count, plant.settings())]?;
    Ok(plan(plant, leg, &mut records, &mut index, place))
}

fn judge_measure(answer: Result<Measured, Refusal>, expected: &Expected) -> Option<Difference> {
    match answer {
        Ok(Measured { length, expanded }) => {
            if expected.length != Some(length) {
                Some(Difference::Length)
            } else if expected.expanded != expanded {
                Some(Difference::Expanded)
            } else {
                None
            }
        }
        Err(Refusal::OutOfReach) if expected.length.is_none() => None,
        Err(_) => Some(Difference::Refused),
    }
}

fn judge_plan(
    answer: Result<Planned, Refusal>,
    place: &[u16],
    expected: &Expected,
) -> Option<Difference> {
    match answer {
        Ok(Planned { length, count }) => {
            if expected.length != Some(length) {
                Some(Difference::Length)
            } else if expected.list.len() != length as usize
                || !is_written(place, expected.list.as_slice())
            {
                Some(Difference::List)
            } else if expected.count != count {
                Some(Difference::Count)
            } else {
                None
            }
        }
        Err(Refusal::OutOfReach) if expected.length.is_none() => None,
        Err(_) => Some(Difference::Refused),
    }
}

// Whether the list stands at the front of the place, with zero behind it.
fn is_written(place: &[u16], list: &[u16]) -> bool {
    place.split_at_checked(list.len()).is_some_and(|(front, behind)| {
        front == list && behind.iter().all(|operation| *operation == 0)
    })
}

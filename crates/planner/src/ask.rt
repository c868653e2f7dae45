// A question of a measure or a plan, and its answer in print.
use anyhow::Context;
use legs::leg::Leg;
use legs::relayed::Relayed;
use measure::{Measured, measure};
use plan::planning::{Planned, plan};
use plant::plant::Plant;
use tagged::tagged::Tagged;
use told::Told;

// A leg, and how many records are lent.
#[derive(Clone, Copy)]
pub struct Question {
    leg: Leg,
    records: usize,
}

impl Question {
    // The four numbers, with single blanks between them.
    pub(crate) fn read(words: &str) -> anyhow::Result<Question> {
        let (start, rest) = cut(words)?;
        let (target, rest) = cut(rest)?;
        let (bound, records) = cut(rest)?;
        Ok(Question {
            leg: Leg {
                start: start.parse::<u32>()?,
                target: target.parse::<u32>()?,
                bound: bound.parse::<u16>()?,
            },
            records: records.parse::<usize>()?,
        })
    }
}

// The first word, and the rest behind the blank.
fn cut(words: &str) -> anyhow::Result<(&str, &str)> {
    words.split_once(' ').context("a question has four numbers")
}

// How many numbers have a bit for each setting.
fn marks_of<P: Plant>(plant: &Tagged<P>) -> usize {
    plant.settings() as usize / 32 + 1
}

pub(crate) fn ask_measure<P: Plant>(
    rt: &HostRuntime,
    plant: &Tagged<P>,
    question: Question,
) -> anyhow::Result<()> {
    let mut records = vec![in rt.alloc(); 0u32; question.records]?;
    let mut index = vec![in rt.alloc(); 0u32; marks_of(plant)]?;
    match measure(plant, question.leg, &mut records, &mut index) {
        Ok(Measured { length, expanded }) => {
            println!(rt; "  length {length}, {expanded} settings expanded")?;
        }
        Err(refusal) => println!(rt; "  {}", Told(Err(refusal)))?,
    }
    Ok(())
}

pub(crate) fn ask_plan<P: Plant>(
    rt: &HostRuntime,
    plant: &Tagged<P>,
    question: Question,
) -> anyhow::Result<()> {
    let mut records = vec![in rt.alloc(); Relayed::default(); question.records]?;
    let mut index = vec![in rt.alloc(); 0u32; marks_of(plant)]?;
    let mut place = [0u16; 255];
    match plan(plant, question.leg, &mut records, &mut index, &mut place) {
        Ok(Planned { length, count }) => {
            println!(rt; "  {length} operations, count {count}")?;
            show_list(rt, plant, question.leg.start, &place, length as usize)
        }
        Err(refusal) => {
            println!(rt; "  {}", Told(Err(refusal)))?;
            Ok(())
        }
    }
}

// Stays: a place with the length beside it, since a plan writes into a place of 255.
// Each operation of the list, with the setting that it leads to.
fn show_list<P: Plant>(
    rt: &HostRuntime,
    plant: &Tagged<P>,
    start: u32,
    place: &[u16],
    length: usize,
) -> anyhow::Result<()> {
    let mut setting = start;
    for operation in place.iter().take(length) {
        setting = plant
            .step(setting, *operation)
            .context("an operation of the list has no step")?;
        println!(rt; "  operation {operation} to {setting}")?;
    }
    Ok(())
}

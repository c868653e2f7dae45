// One line of the script: a call with its numbers, or a line that begins with # and is printed as it is.
use crate::lamps::show_lamps;
use anyhow::{Context, anyhow};
use legs::relayed::Relayed;
use plant::refusal::Refusal;
use sequencer::sequencer::Sequencer;
use told::Told;
use valves::bench::Bench;

// The most records that a plan of the script is lent.
const RECORDS: usize = 8;

pub(crate) fn run_line(
    rt: &HostRuntime,
    sequencer: &mut Sequencer<Bench>,
    line: &str,
) -> anyhow::Result<()> {
    rt.println(line)?;
    if line.starts_with('#') || line.is_empty() {
        return Ok(());
    }
    match line.split_once(' ') {
        Some(("plan", rest)) => match run_plan(sequencer, rest)? {
            Ok(count) => println!(rt; "  accepted, {count} expanded")?,
            Err(refusal) => println!(rt; "  {}", Told(Err(refusal)))?,
        },
        _ => println!(rt; "  {}", Told(run_call(sequencer, line)?))?,
    }
    show_lamps(rt, sequencer)
}

fn run_call(sequencer: &mut Sequencer<Bench>, line: &str) -> anyhow::Result<Result<(), Refusal>> {
    match line.split_once(' ') {
        Some(("tag", operation)) => Ok(sequencer.tag(operation.parse::<u16>()?)),
        Some(("untag", operation)) => Ok(sequencer.untag(operation.parse::<u16>()?)),
        Some(("done", operation)) => Ok(sequencer.done(operation.parse::<u16>()?)),
        Some(("hand", setting)) => Ok(sequencer.hand_move(setting.parse::<u32>()?)),
        None => Ok(sequencer.drop_list()),
        _ => Err(anyhow!("a line is tag, untag, plan, done, drop or hand")),
    }
}

// A plan with the target, the bound, and how many records are lent.
fn run_plan(sequencer: &mut Sequencer<Bench>, rest: &str) -> anyhow::Result<Result<u64, Refusal>> {
    let (target, rest) = cut(rest)?;
    let (bound, lent) = cut(rest)?;
    let mut records = [Relayed::default(); RECORDS];
    let records = records
        .get_mut(..lent.parse::<usize>()?)
        .context("there are not so many records")?;
    Ok(sequencer.plan(
        target.parse::<u32>()?,
        bound.parse::<u16>()?,
        records,
        &mut [],
    ))
}

// The first word, and the rest behind the blank.
fn cut(words: &str) -> anyhow::Result<(&str, &str)> {
    words
        .split_once(' ')
        .context("a plan has a target, a bound and a number of records")
}

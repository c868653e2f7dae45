// One line of the script: a plant, then `tag` or `untag` and an operation, or `measure` or `plan` and four numbers. A
// line that begins with # is printed as it is.
use crate::ask::{Question, ask_measure, ask_plan};
use crate::plants::Plants;
use anyhow::anyhow;
use plant::plant::Plant;
use tagged::tagged::Tagged;
use told::Told;

pub(crate) fn run_line(rt: &HostRuntime, plants: &mut Plants, line: &str) -> anyhow::Result<()> {
    rt.println(line)?;
    if line.starts_with('#') || line.is_empty() {
        return Ok(());
    }
    match line.split_once(' ') {
        Some(("bench", rest)) => run_on(rt, &mut plants.bench, rest),
        Some(("twelve", rest)) => run_on(rt, &mut plants.twelve, rest),
        Some(("ring", rest)) => run_on(rt, &mut plants.ring, rest),
        Some(("pair", rest)) => run_on(rt, &mut plants.pair, rest),
        _ => Err(anyhow!("a line names bench, twelve, ring or pair")),
    }
}

fn run_on<P: Plant>(rt: &HostRuntime, plant: &mut Tagged<P>, rest: &str) -> anyhow::Result<()> {
    let answer = match rest.split_once(' ') {
        Some(("tag", operation)) => plant.tag(operation.parse::<u16>()?),
        Some(("untag", operation)) => plant.untag(operation.parse::<u16>()?),
        Some(("measure", words)) => return ask_measure(rt, plant, Question::read(words)?),
        Some(("plan", words)) => return ask_plan(rt, plant, Question::read(words)?),
        _ => return Err(anyhow!("a line says tag, untag, measure or plan")),
    };
    println!(rt; "  {}", Told(answer))?;
    Ok(())
}

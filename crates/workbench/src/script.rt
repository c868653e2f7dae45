// One line of the script: a plant and operations to work from setting 0, or a plant, `tag` or `untag`, and operations.
// A line that begins with # is printed as it is.
use crate::describe::Describe;
use crate::shop::Shop;
use anyhow::anyhow;
use plant::plant::Plant;
use tagged::tagged::Tagged;
use told::Told;

pub(crate) fn run_line(rt: &HostRuntime, shop: &mut Shop, line: &str) -> anyhow::Result<()> {
    rt.println(line)?;
    if line.starts_with('#') || line.is_empty() {
        return Ok(());
    }
    match line.split_once(' ') {
        Some(("bench", rest)) => run_on(rt, &mut shop.bench, rest),
        Some(("track", rest)) => run_on(rt, &mut shop.track, rest),
        Some(("pair", rest)) => run_on(rt, &mut shop.pair, rest),
        _ => Err(anyhow!("a line names bench, track or pair")),
    }
}

fn run_on<P: Plant + Describe>(
    rt: &HostRuntime,
    plant: &mut Tagged<P>,
    rest: &str,
) -> anyhow::Result<()> {
    let answer = match rest.split_once(' ') {
        Some(("tag", operation)) => plant.tag(operation.parse::<u16>()?),
        Some(("untag", operation)) => plant.untag(operation.parse::<u16>()?),
        _ => return work(rt, plant, rest),
    };
    println!(rt; "  {}", Told(answer))?;
    Ok(())
}

// Works the operations from setting 0, as far as they have a step, and prints each setting.
fn work<P: Plant + Describe>(
    rt: &HostRuntime,
    plant: &Tagged<P>,
    words: &str,
) -> anyhow::Result<()> {
    let mut setting = 0;
    let text = plant.describe(rt.alloc(), setting)?;
    println!(rt; "  at {setting}: {text}")?;
    for word in words.split(' ') {
        let operation = word.parse::<u16>()?;
        match plant.step(setting, operation) {
            Some(next) => {
                setting = next;
                let text = plant.describe(rt.alloc(), setting)?;
                println!(rt; "  operation {operation} to {setting}: {text}")?;
            }
            None => {
                let tagged = plant.is_tagged(operation);
                let why = if tagged { ", it bears a tag" } else { "" };
                println!(rt; "  operation {operation}: no step{why}")?;
            }
        }
    }
    println!(rt; "  ended at {setting}")?;
    Ok(())
}

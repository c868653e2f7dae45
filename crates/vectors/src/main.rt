// Holds measure and plan to vectors on standard input: each names a plant, a question and what is to be answered.
#![tactic(auto)]

mod compare;
mod difference;
mod lending;
mod plants;
mod vector;

use plants::check;
use vector::Vector;

fn main(rt: HostRuntime) -> anyhow::Result<()> {
    run(&rt)
}

fn run(rt: &HostRuntime) -> anyhow::Result<()> {
    let mut all = 0u32;
    let mut good = 0u32;
    for line in rt.lines(rt.alloc()) {
        let line = line?;
        if line.as_str().starts_with('#') {
            continue;
        }
        all = all.saturating_add(1);
        if run_line(rt, all, line.as_str())? {
            good = good.saturating_add(1);
        }
    }
    println!(rt; "{all} vectors, {good} ok")?;
    Ok(())
}

// Checks the vector of one line, and prints what came of it.
fn run_line(rt: &HostRuntime, number: u32, line: &str) -> anyhow::Result<bool> {
    let vector = Vector::read(rt.alloc(), line)?;
    match check(rt.alloc(), &vector)? {
        None => {
            println!(rt; "{number}: ok")?;
            Ok(true)
        }
        Some(difference) => {
            println!(rt; "{number}: {difference}")?;
            Ok(false)
        }
    }
}

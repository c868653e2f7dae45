// Measures and plans on two valve benches, a track and a pair, as a script on standard input says, and prints each
// answer with the settings that a list passes.
#![tactic(auto)]

mod ask;
mod plants;
mod script;

use plants::Plants;
use script::run_line;

fn main(rt: HostRuntime) -> anyhow::Result<()> {
    run(&rt)
}

fn run(rt: &HostRuntime) -> anyhow::Result<()> {
    let mut plants = Plants::new()?;
    for line in rt.lines(rt.alloc()) {
        let line = line?;
        run_line(rt, &mut plants, line.as_str())?;
    }
    Ok(())
}

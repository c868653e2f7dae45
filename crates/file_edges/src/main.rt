// Reads files at the edges of each check, made as a script on standard input says, and prints what is told of each.
#![tactic(auto)]

mod bytes;
mod script;

use script::run_line;

fn main(rt: HostRuntime) -> anyhow::Result<()> {
    run(&rt)
}

fn run(rt: &HostRuntime) -> anyhow::Result<()> {
    for line in rt.lines(rt.alloc()) {
        let line = line?;
        run_line(rt, line.as_str())?;
    }
    Ok(())
}

// Works a day at the sequencer of a small bench, as a script on standard input says: prints each call, its answer, and
// what the sequencer tells after it.
#![tactic(auto)]

mod lamps;
mod script;

use sample_plants::bench_a;
use script::run_line;
use sequencer::sequencer::Sequencer;

fn main(rt: HostRuntime) -> anyhow::Result<()> {
    run(&rt)
}

fn run(rt: &HostRuntime) -> anyhow::Result<()> {
    let mut sequencer = Sequencer::new(bench_a());
    for line in rt.lines(rt.alloc()) {
        let line = line?;
        run_line(rt, &mut sequencer, line.as_str())?;
    }
    Ok(())
}

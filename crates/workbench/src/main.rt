// Works operations on a valve bench, a track and a pair of the two, as a script on standard input says, and prints
// every setting on the way.
#![tactic(auto)]

mod describe;
mod script;
mod shop;

use script::run_line;
use shop::Shop;

fn main(rt: HostRuntime) -> anyhow::Result<()> {
    run(&rt)
}

fn run(rt: &HostRuntime) -> anyhow::Result<()> {
    let mut shop = Shop::new();
    for line in rt.lines(rt.alloc()) {
        let line = line?;
        run_line(rt, &mut shop, line.as_str())?;
    }
    Ok(())
}

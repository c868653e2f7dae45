// What the sequencer tells: the setting, the tagged operations, and the list in hand.
use sequencer::sequencer::Sequencer;
use std::fmt::Write;
use valves::bench::Bench;

// How many operations the bench has.
const OPERATIONS: u16 = 4;

pub(crate) fn show_lamps(rt: &HostRuntime, sequencer: &Sequencer<Bench>) -> anyhow::Result<()> {
    let setting = sequencer.setting();
    let mut tags = String::new(rt.alloc());
    for operation in 0..OPERATIONS {
        if sequencer.is_tagged(operation) {
            write!(tags, " {operation}")?;
        }
    }
    match (sequencer.target(), sequencer.length()) {
        (Some(target), Some(length)) => {
            let list = list_of(rt, sequencer, length)?;
            println!(rt; "  setting {setting}; tags{tags}; list to {target}:{list}")?;
        }
        _ => {
            println!(rt; "  setting {setting}; tags{tags}; no list")?;
        }
    }
    Ok(())
}

fn list_of(rt: &HostRuntime, sequencer: &Sequencer<Bench>, length: u16) -> anyhow::Result<String> {
    let mut list = String::new(rt.alloc());
    for place in 0..length {
        if let Some(operation) = sequencer.operation(place) {
            write!(list, " {operation}")?;
        }
    }
    Ok(list)
}

// Reads a book from standard input and writes its sheet to standard output, or the line of the first fault. Ends with
// status 0 for a sheet, and with status 1 for a fault.
#![tactic(auto)]

use anyhow::anyhow;
use book_to_sheet::call::book_to_sheet;
use fault_line::line::Line;
use std::io::{Read, Write};

// The room for a book and for a sheet: one byte more than the longest book has, so that a longer input is seen to be too
// long once so much of it is read, and no more is.
const ROOM: usize = 65536;

fn main(rt: HostRuntime) -> anyhow::Result<()> {
    run(&rt)
}

fn run(rt: &HostRuntime) -> anyhow::Result<()> {
    let mut book = Vec::new(rt.alloc());
    rt.stdin().take(ROOM as u64).read_to_end(&mut book)?;
    let mut sheet = vec![in rt.alloc(); 0u8; ROOM]?;
    let mut out = rt.stdout();
    match book_to_sheet(&book, &mut sheet) {
        Ok(written) => {
            out.write_all(&sheet[0..written])?;
            Ok(())
        }
        Err(fault) => {
            out.write_all(Line::of(fault).as_bytes())?;
            Err(anyhow!("the book has a fault"))
        }
    }
}

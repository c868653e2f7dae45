// One line of the script: the name of a case and a colon, then `book` or `sheet` and the bytes of a file. A line that
// begins with # is printed as it is.
use crate::bytes::bytes_of;
use anyhow::{Context, anyhow};
use book::first_book_fault;
use faults::fault::FileFault;
use sheet_reader::read_sheet;

pub(crate) fn run_line(rt: &HostRuntime, line: &str) -> anyhow::Result<()> {
    if line.starts_with('#') {
        rt.println(line)?;
        return Ok(());
    }
    let (name, rest) = line
        .split_once(": ")
        .context("a line has a name and a file")?;
    tell(rt, name, fault_of(rt, rest)?)
}

// The first fault of the file, read as a book or as a sheet.
fn fault_of(rt: &HostRuntime, line: &str) -> anyhow::Result<Option<FileFault>> {
    match line.split_once(' ') {
        Some(("book", words)) => {
            let bytes = bytes_of(rt.alloc(), words)?;
            Ok(first_book_fault(bytes.as_slice()))
        }
        Some(("sheet", words)) => {
            let bytes = bytes_of(rt.alloc(), words)?;
            Ok(read_sheet(bytes.as_slice()).fault())
        }
        _ => Err(anyhow!("a file is a book or a sheet")),
    }
}

fn tell(rt: &HostRuntime, name: &str, fault: Option<FileFault>) -> anyhow::Result<()> {
    match fault {
        Some(fault) => println!(rt; "{name}: {fault}")?,
        None => println!(rt; "{name}: accepted")?,
    }
    Ok(())
}

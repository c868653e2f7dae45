// A sheet written body by body.
use sheet::refusal::SheetRefusal;
use sheet::states::EmptySheet;
use sheet_reader::read_sheet;
use std::process::Abort;
use std::test::Fail;

#[test]
fn sheet_of_one_body(rt: HostRuntime) -> Result<(), Fail> {
    let mut buffer = [255u8; 26];
    let mut open = EmptySheet::new().open(&mut buffer, 1)?;
    open.put(&mut buffer, 0, 16, &[0, 2, 0, 3])?;
    let Ok(closed) = open.close() else {
        return Err(Fail::new("not closed"));
    };
    assert_eq!(rt; closed.len(), 24);
    let written: &[u8] =
        b"\x01\x00\x04\x00\x12\x00\x00\x00\x10\x00\x00\x00\x00\x00\x00\x00\x00\x00\x02\x00\x00\x00\x03\x00\xff\xff";
    assert!(rt; &buffer[0..26] == written);
    assert_eq!(rt; read_sheet(&buffer[0..24]).entries(), 1);
    Ok(())
}

// The refusal of a body on a sheet for one body in this buffer.
fn refused(
    rt: &impl Abort,
    buffer: &mut [u8],
    answer: u8,
    count: u64,
    operations: &[u16],
    why: SheetRefusal,
) -> Result<(), Fail> {
    let mut open = EmptySheet::new().open(buffer, 1)?;
    assert_eq!(rt; open.put(buffer, answer, count, operations), Err(why));
    Ok(())
}

#[test]
fn refusals(rt: HostRuntime) -> Result<(), Fail> {
    let mut long = [0u8; 64];
    let mut short = [0u8; 15];
    refused(&rt, &mut long, 1, 0, &[], SheetRefusal::Body)?;
    refused(&rt, &mut long, 4, 1, &[], SheetRefusal::Body)?;
    refused(&rt, &mut long, 7, 0, &[0], SheetRefusal::Body)?;
    refused(&rt, &mut short, 0, 0, &[], SheetRefusal::ShortSheet)?;
    refused(&rt, &mut short, 8, 0, &[], SheetRefusal::Body)
}

#[test]
fn over_and_under(rt: HostRuntime) -> Result<(), Fail> {
    let mut buffer = [0u8; 8];
    let mut open = EmptySheet::new().open(&mut buffer, 0)?;
    assert_eq!(rt;
        open.put(&mut buffer, 0, 0, &[]),
        Err(SheetRefusal::OverCount)
    );
    let other = EmptySheet::new().open(&mut buffer, 1)?;
    let Err(refused) = other.close() else {
        return Err(Fail::new("closed"));
    };
    assert_eq!(rt; refused.refusal, SheetRefusal::UnderCount);
    Ok(())
}

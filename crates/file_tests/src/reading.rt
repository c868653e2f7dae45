// Files with a fault each, and what is told of it; and a book that has none.
use book::first_book_fault;
use book::read::Book;
use fault_line::line::Line;
use faults::fault::FileFault;
use file::entries::Entries;
use file::file::File;
use file::kind::{Kind, Reader, UnknownKind};
use std::process::Abort;
use std::test::Fail;

// The file has this fault: layer, number, byte.
fn faulty(rt: &impl Abort, bytes: &[u8], layer: u8, number: u8, byte: u32) -> Result<(), Fail> {
    let Some(fault) = first_book_fault(bytes) else {
        return Err(Fail::new("no fault"));
    };
    assert_eq!(rt; fault.layer().code(), layer);
    assert_eq!(rt; fault.number(), number);
    assert_eq!(rt; fault.byte(), byte);
    Ok(())
}

// A file, and what is told of it: layer, number, byte.
type Case = (&'static [u8], u8, u8, u32);

const HEADS_AND_ROWS: [Case; 9] = [
    (b"", 1, 10, 0),
    (b"\x07", 1, 10, 1),
    (b"\x41\x01", 2, 11, 0),
    (b"\x00\x01", 2, 11, 1),
    (b"\x01\x00", 1, 10, 2),
    (b"\x01\x00\x05\x01\x00\x00", 2, 11, 2),
    (b"\x01\x00\x04\x01\x00\x00", 2, 11, 3),
    (b"\x01\x00\x03\x00\x0c\x00", 1, 10, 6),
    (b"\x00\x00\x09\x09", 1, 10, 2),
];

const BODIES: [Case; 12] = [
    // a bench without its counts, of no valve, of too many positions
    (b"\x01\x00\x01\x00\x00\x00", 3, 12, 6),
    (b"\x01\x00\x01\x00\x02\x00\x00\x00", 3, 12, 6),
    (b"\x01\x00\x01\x00\x04\x00\x02\x00\x02\x05", 3, 12, 9),
    // an interlock of a valve with itself, and of a position that there is not
    (
        b"\x01\x00\x01\x00\x08\x00\x02\x01\x03\x02\x00\x02\x00\x00",
        3,
        12,
        12,
    ),
    (
        b"\x01\x00\x01\x00\x08\x00\x02\x01\x03\x02\x00\x02\x01\x02",
        3,
        12,
        13,
    ),
    // a track of no station, and a link from a station to itself
    (b"\x01\x00\x02\x00\x04\x00\x00\x00\x00\x00", 3, 12, 6),
    (
        b"\x01\x00\x02\x00\x08\x00\x02\x00\x01\x00\x01\x00\x01\x00",
        3,
        12,
        12,
    ),
    // a job on itself
    (
        b"\x01\x00\x03\x00\x0c\x00\x00\x00\x04\x00\x00\x00\x00\x00\x02\x00\x00\x00",
        3,
        12,
        6,
    ),
    // a steps body of an odd length, of an answer that is none, of a count under a refusal
    (
        b"\x01\x00\x04\x00\x0b\x00\x00\x00\x00\x00\x00\x00\x00\x00\x00\x00\x00",
        3,
        12,
        6,
    ),
    (
        b"\x01\x00\x04\x00\x0a\x00\x03\x00\x00\x00\x00\x00\x00\x00\x00\x00",
        3,
        12,
        6,
    ),
    (
        b"\x01\x00\x04\x00\x0a\x00\x07\x00\x01\x00\x00\x00\x00\x00\x00\x00",
        3,
        12,
        8,
    ),
    // and one that is right, in a book
    (
        b"\x01\x00\x04\x00\x0a\x00\x07\x00\x00\x00\x00\x00\x00\x00\x00\x00",
        2,
        14,
        2,
    ),
];

#[test]
fn heads_and_rows(rt: HostRuntime) -> Result<(), Fail> {
    for (bytes, layer, number, byte) in HEADS_AND_ROWS {
        faulty(&rt, bytes, layer, number, byte)?;
    }
    Ok(())
}

#[test]
fn bodies(rt: HostRuntime) -> Result<(), Fail> {
    for (bytes, layer, number, byte) in BODIES {
        faulty(&rt, bytes, layer, number, byte)?;
    }
    Ok(())
}

#[test]
fn book_of_a_bench_and_a_job(rt: HostRuntime) {
    let bytes =
        b"\x02\x00\x01\x00\x08\x00\x03\x00\x0c\x00\x02\x01\x03\x02\x00\x02\x01\x00\x00\x00\x04\x00\x00\x00\x00\x00\x02\x00\x00\x00";
    assert_eq!(rt; first_book_fault(bytes), None);
    let file = File::read(Reader::AllKinds, bytes);
    assert_eq!(rt; file.entries(), 2);
    assert!(rt; file.entry(1).is_some());
    assert!(rt; file.entry(2).is_none());
}

#[test]
fn no_book_and_no_entries(rt: HostRuntime) -> Result<(), Fail> {
    assert!(rt; Book::read(b"\x07").is_err());
    assert!(rt; Entries::read(Reader::StepsAlone, b"\x01\x00\x03\x00\x00\x00").is_err());
    let Ok(book) = Book::read(b"\x00\x00") else {
        return Err(Fail::new("a fault"));
    };
    assert_eq!(rt; book.len(), 0);
    assert!(rt; book.get(0).is_none());
    Ok(())
}

#[test]
fn kinds(rt: HostRuntime) {
    assert_eq!(rt; Kind::try_from(3), Ok(Kind::Job));
    assert_eq!(rt; Kind::try_from(5), Err(UnknownKind(5)));
}

#[test]
fn lines(rt: HostRuntime) {
    let line = Line::of(FileFault::TooShort { end: 1 });
    let told: &[u8] = b"fault file 10 1\n";
    assert!(rt; line.as_bytes() == told);
}

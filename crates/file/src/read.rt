// Reading a file: its head, its rows, its length, and then its bodies are checked.
ghost use Rattle.std.specs.Prelude.{◌≡◌, IfOk};
ghost use Rattle.std.specs.Result.{result_err};
ghost use Rattle.file.specs.Read.{head_fault, contents_fault, read_fault};
ghost use Rattle.file.specs.Held.{entries_bytes, entries_reader};
ghost use Rattle.file.specs.Begun.{RowsBegun, BodiesBegun};

use crate::bodies_of::check_bodies;
use crate::body::Bodies;
use crate::entries::Entries;
use crate::kind::Reader;
use crate::row::Rows;
use crate::rows::{check_rows, rows_length};
use faults::fault::{ContentsFault, FileFault};

// The rows behind the head, or what is wrong first with it: over 65,535 bytes, under 2 bytes, byte 0, byte 1, contents
// not complete.
fn read_head<'a>(file: &'a [u8]) -> Result<Rows<'a>, FileFault>
    ensures fault { result_err result ≡ head_fault file.now }
    ensures rows { IfOk result (λ rows. RowsBegun file.now rows) }
{
    let length = file.len();
    if length > 65535 {
        return Err(FileFault::TooLong { end: 65535 });
    }
    let [entries, zero, rows @ ..] = file else {
        return Err(FileFault::TooShort { end: length as u16 });
    };
    if *entries > 64 {
        return Err(FileFault::Contents(ContentsFault::Entries));
    }
    if *zero != 0 {
        return Err(FileFault::Contents(ContentsFault::HeadZero));
    }
    if length < 2 + 4 * *entries as usize {
        return Err(FileFault::TooShort { end: length as u16 });
    }
    Ok(Rows {
        number: 0,
        left: *entries,
        bytes: rows,
    })
}

// The bodies behind the contents, or what is wrong first before them: head, each row in order, total length.
fn read_contents<'a>(reader: Reader, file: &'a [u8]) -> Result<Bodies<'a>, FileFault>
    ensures fault { result_err result ≡ contents_fault reader file.now }
    ensures bodies { IfOk result (λ bodies. BodiesBegun file.now bodies) }
{
    let rows = read_head(file)?;
    check_rows(reader, rows).map_err(FileFault::Contents)?;
    let length = file.len();
    let place = 2 + 4 * rows.left as usize;
    let told = place + rows_length(rows);
    if length < told {
        return Err(FileFault::TooShort { end: length as u16 });
    }
    if told < length {
        return Err(FileFault::TooLong { end: told as u16 });
    }
    Ok(Bodies {
        file,
        rows,
        place: place as u16,
    })
}

impl<'a> Entries<'a> {
    // The entries of a file, or what is wrong first with it: head, each row in order, total length, each body in order.
    pub fn read(reader: Reader, file: &'a [u8]) -> Result<Entries<'a>, FileFault>
        ensures fault { result_err result ≡ read_fault reader file.now }
        ensures bytes { IfOk result (λ entries. entries_bytes entries ≡ file.now) }
        ensures reader { IfOk result (λ entries. entries_reader entries ≡ reader) }
    {
        let bodies = read_contents(reader, file)?;
        check_bodies(bodies).map_err(FileFault::Body)?;
        Ok(Entries { reader, bodies })
    }
}

// What is wrong first with a file, if anything.
pub fn first_fault(reader: Reader, file: &[u8]) -> Option<FileFault>
    ensures { result ≡ read_fault reader file.now }
{
    Entries::read(reader, file).err()
}

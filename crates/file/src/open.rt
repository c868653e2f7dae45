// The entries of a file that was read, and the file with its fault.
ghost use Rattle.std.specs.Prelude.{◌≡◌, IfOk};
ghost use Rattle.std.specs.List.{slice_get};
ghost use Rattle.std.specs.Result.{result_err};
ghost use Rattle.file.specs.Read.{entries, parts, read_fault};
ghost use Rattle.file.specs.Held.{entries_bytes};
ghost use Rattle.file.specs.Files.{file_bytes, file_reader, file_fault, entries_of, entry_of, seen, BodySeen, StandsIn};

use crate::body::Body;
use crate::entries::Entries;
use crate::entry::Entry;
use crate::file::File;
use crate::kind::{Kind, Reader};
use faults::fault::FileFault;

// The body as an entry; none where its kind is none.
fn entry_of<'a>(part: Body<'a>) -> Option<Entry<'a>>
    ensures { BodySeen part.entry result }
{
    let place = part.place;
    let body = part.bytes;
    Some(match part.kind? {
        Kind::Valves => Entry::Valves { place, body },
        Kind::Track => Entry::Track { place, body },
        Kind::Job => Entry::Job { place, body },
        Kind::Steps => Entry::Steps { place, body },
    })
}

impl<'a> Entries<'a> {
    // How many there are.
    pub fn len(&self) -> u8
        ensures { result ≡ entries (entries_bytes self.now) }
    {
        self.bodies.rows.left
    }

    // The entry with a number, from 0; none past the last.
    pub fn get(&self, number: u8) -> Option<Entry<'a>>
        ensures which { seen result ≡ slice_get (parts (entries_bytes self.now)) number }
        ensures part { StandsIn (entries_bytes self.now) (seen result) }
    {
        let body = self.bodies.nth(number)?;
        entry_of(body)
    }
}

impl<'a> File<'a> {
    // Reads a file: all of it is checked, and the entries or the first fault are kept.
    pub fn read(reader: Reader, bytes: &'a [u8]) -> File<'a>
        ensures fault { file_fault result ≡ read_fault reader bytes.now }
        ensures bytes { file_bytes result ≡ bytes.now }
        ensures reader { file_reader result ≡ reader }
    {
        File {
            reader,
            bytes,
            entries: Entries::read(reader, bytes),
        }
    }

    // The entries of the file, or its first fault.
    pub fn checked(&self) -> Result<Entries<'a>, FileFault>
        ensures fault { result_err result ≡ file_fault self.now }
        ensures bytes { IfOk result (λ entries. entries_bytes entries ≡ file_bytes self.now) }
    {
        self.entries
    }

    // The first fault of the file, if it has one.
    pub fn fault(&self) -> Option<FileFault>
        ensures { result ≡ file_fault self.now }
    {
        self.checked().err()
    }

    // How many entries the file has; none where it has a fault.
    pub fn entries(&self) -> u8
        ensures { result ≡ entries_of (file_fault self.now) (file_bytes self.now) }
    {
        self.checked().map_or(0, |entries| entries.len())
    }

    // The entry with a number, from 0; none past the last, and none where the file has a fault.
    pub fn entry(&self, number: u8) -> Option<Entry<'a>>
        ensures which { seen result ≡ entry_of (file_fault self.now) (file_bytes self.now) number }
        ensures part { StandsIn (file_bytes self.now) (seen result) }
    {
        self.checked().ok()?.get(number)
    }
}

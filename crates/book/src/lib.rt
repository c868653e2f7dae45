// A book: a file of benches, tracks and jobs, with no steps body.
#![tactic(auto)]

pub mod read;

ghost use Rattle.std.specs.Prelude.{◌≡◌, IfOk};
ghost use Rattle.std.specs.List.{slice_get};
ghost use Rattle.std.specs.Option.{option_map};
ghost use Rattle.std.specs.Result.{result_err};
ghost use Rattle.file.specs.Read.{entries, parts};
ghost use Rattle.file.specs.Held.{entries_bytes};
ghost use Rattle.file.specs.Files.{file_bytes, file_fault, seen, StandsIn};
ghost use Rattle.book.specs.Book.{is_steps, steps_from, first_steps, no_book, book_fault_in, book_fault};
ghost use Rattle.book.specs.Held.{book_bytes};

use crate::read::Book;
use faults::fault::{ContentsFault, FileFault};
use file::entries::Entries;
use file::entry::Entry;
use file::file::File;
use file::kind::Reader;

// Whether the entry with this number is a steps body.
fn holds_steps(entries: &Entries, number: u8) -> bool
    ensures { result ≡ is_steps (slice_get (parts (entries_bytes entries.now)) number) }
{
    matches!(entries.get(number), Some(Entry::Steps { .. }))
}

// The number of the first of the entries that is a steps body.
fn steps_among(entries: &Entries) -> Option<u8>
    ensures { result ≡ steps_from 0 (parts (entries_bytes entries.now)) }
{
    (0..entries.len()).find(|number| holds_steps(entries, *number))
}

// Refused at the first of the entries that is a steps body.
fn check_no_steps(entries: &Entries) -> Result<(), FileFault>
    ensures { result_err result ≡ option_map no_book (steps_from 0 (parts (entries_bytes entries.now))) }
{
    match steps_among(entries) {
        Some(number) => Err(FileFault::Contents(ContentsFault::NoBook(number))),
        None => Ok(()),
    }
}

impl<'a> Book<'a> {
    // Reads a book, or what is wrong first with it: the file's own fault, or else its first steps body.
    pub fn read(bytes: &'a [u8]) -> Result<Book<'a>, FileFault>
        ensures fault { result_err result ≡ book_fault bytes.now }
        ensures bytes { IfOk result (λ book. book_bytes book ≡ bytes.now) }
    {
        let entries = Entries::read(Reader::AllKinds, bytes)?;
        check_no_steps(&entries)?;
        Ok(Book { entries })
    }

    // How many entries the book has.
    pub fn len(&self) -> u8
        ensures { result ≡ entries (book_bytes self.now) }
    {
        self.entries.len()
    }

    // The entry with a number, from 0; none past the last.
    pub fn get(&self, number: u8) -> Option<Entry<'a>>
        ensures which { seen result ≡ slice_get (parts (book_bytes self.now)) number }
        ensures part { StandsIn (book_bytes self.now) (seen result) }
    {
        self.entries.get(number)
    }
}

// The number of the first entry that is a steps body; none in a file with a fault.
pub fn steps_in(file: &File) -> Option<u8>
    ensures { result ≡ first_steps (file_fault file.now) (file_bytes file.now) }
{
    steps_among(&file.checked().ok()?)
}

// What is wrong first with a file as a book: the file's own fault, or else its first steps body.
pub fn fault_as_book(file: &File) -> Option<FileFault>
    ensures { result ≡ book_fault_in (file_fault file.now) (file_bytes file.now) }
{
    file.checked()
        .and_then(|entries| check_no_steps(&entries))
        .err()
}

// The first fault of a book.
pub fn first_book_fault(bytes: &[u8]) -> Option<FileFault>
    ensures { result ≡ book_fault bytes.now }
{
    Book::read(bytes).err()
}

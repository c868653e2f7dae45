// How many jobs a book has: as many bodies has its sheet.
ghost use Rattle.std.specs.Prelude.{◌≡◌, ◌≤◌, ◌==◌};
ghost use Rattle.book_sheet.specs.Sheets.{jobs_in};
ghost use Rattle.book_to_sheet.specs.Entries.{parts_of, jobs_at};

use book::read::Book;
use file::entry::Entry;

// Whether the entry with this number is a job.
fn is_job(book: &Book, number: u8) -> bool
    ensures { result ≡ (jobs_at (parts_of book.now) number == 1) }
{
    matches!(book.get(number), Some(Entry::Job { .. }))
}

// How many of the entries are jobs.
pub(crate) fn count_jobs(book: &Book) -> usize
    ensures jobs { result ≡ jobs_in (parts_of book.now) }
    ensures few { result ≤ 64 }
{
    (0..book.len())
        .filter(|number| is_job(book, *number))
        .count()
}

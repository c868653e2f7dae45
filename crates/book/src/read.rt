// A book that was read without a fault.
ghost use Rattle.std.specs.Prelude.{◌≡◌, false, is_some};
ghost use Rattle.file.specs.Held.{entries_bytes};
ghost use Rattle.book.specs.Book.{book_fault};

use file::entries::Entries;

#[derive(Clone, Copy)]
pub struct Book<'a> {
    pub(crate) entries: Entries<'a>,
    ghost faultless: { is_some (book_fault (entries_bytes entries)) ≡ false },
}

// A book of a bench and a job, and its sheet.
ghost use Rattle.std.specs.Prelude.{◌≡◌, Ok};
ghost use Rattle.book_sheet.specs.Sheets.{sheet_of, sheet_told};
ghost use Rattle.book_sheet.specs.Example.{example_book, example_sheet};

#[derive(Clone, Copy)]
pub struct BookAndSheet {
    pub book: [u8; 30],
    pub sheet: [u8; 24],
}

// A bench of positions 3 and 2 with the interlock 0, 2, 1, 0; a job from 0 to 2 with bound 4; and the sheet that answers it.
pub fn worked_example() -> BookAndSheet
    ensures book { result.book ≡ example_book }
    ensures bytes { result.sheet ≡ example_sheet }
    ensures sheet { result.sheet ≡ sheet_of result.book }
    ensures told { sheet_told result.book 24 ≡ Ok 24 }
{
    BookAndSheet {
        book: *b"\x02\x00\x01\x00\x08\x00\x03\x00\x0C\x00\x02\x01\x03\x02\x00\x02\x01\x00\x00\x00\x04\x00\x00\x00\x00\x00\x02\x00\x00\x00",
        sheet: *b"\x01\x00\x04\x00\x12\x00\x00\x00\x10\x00\x00\x00\x00\x00\x00\x00\x00\x00\x02\x00\x00\x00\x03\x00",
    }
}

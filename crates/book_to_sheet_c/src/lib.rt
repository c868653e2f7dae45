// The call from book to sheet, for callers in C.
#![tactic(auto)]

ghost use Rattle.std.specs.Prelude.{◌≡◌, length};
ghost use Rattle.book_sheet.specs.Sheets.{sheet_told, sheet_left};
ghost use Rattle.book_to_sheet.specs.Code.{one_number, Tells};

use book_to_sheet::call::book_to_sheet;
use fault_code::coded;

// As `book_to_sheet`, with the answer as one number: the sheet's length, which is below 65,536, or the fault, 65,536 times
// the sum of 256 times the layer and the number, plus the byte.
#[unsafe(no_mangle)]
pub extern "C" fn jidorafu_book_to_sheet(book: &[u8], sheet: &mut [u8]) -> u64
    ensures answer { result ≡ one_number (sheet_told book.now (length sheet.old)) }
    ensures tells { Tells (sheet_told book.now (length sheet.old)) result }
    ensures bytes { sheet.new ≡ sheet_left book.now sheet.old }
{
    match book_to_sheet(book, sheet) {
        Ok(length) => length as u64,
        Err(fault) => coded(fault),
    }
}

// The call from book to sheet.
ghost use Rattle.std.specs.Prelude.{◌≡◌, length};
ghost use Rattle.book.specs.Held.{book_bytes};
ghost use Rattle.book_sheet.specs.Sheets.{sheet_told, sheet_left};
ghost use Rattle.book_to_sheet.specs.Code.{Sixteen};
ghost use Rattle.book_to_sheet.specs.Filled.{SheetWritten};
ghost use Rattle.book_to_sheet.specs.Laws.{PlansReadBack};

use crate::fill::fill;
use crate::jobs::count_jobs;
use crate::workspace::Workspace;
use book::read::Book;
use faults::fault::FileFault;
use sheet::refusal::SheetRefusal;
use sheet::states::EmptySheet;

// Plans every job of the book and writes one steps body for each, in their order: the list with its count, or the number
// of the refusal. Answers the sheet's length. Refused with the book's first fault, and then where the buffer is too
// short for the sheet; the first leaves the buffer as it was, the second leaves it zero. Bytes behind the sheet stay.
// The sheet reads back as one body for each job, and each is that job's plan.
pub fn book_to_sheet(book: &[u8], sheet: &mut [u8]) -> Result<usize, FileFault>
    ensures answer { result ≡ sheet_told book.now (length sheet.old) }
    ensures bytes { sheet.new ≡ sheet_left book.now sheet.old }
    ensures sixteen { Sixteen result }
    ensures plans { PlansReadBack book.now sheet.new result }
{
    let read = Book::read(book)?;
    let mut workspace = Workspace::new();
    match write_sheet(&read, sheet, &mut workspace) {
        Ok(length) => Ok(length),
        Err(_) => {
            let end = sheet.len() as u16;
            sheet.fill(0);
            Err(FileFault::ShortSheet { end })
        }
    }
}

// Writes the sheet of the book's jobs. Refused where the buffer is too short for it.
fn write_sheet(
    book: &Book,
    buffer: &mut [u8],
    workspace: &mut Workspace,
) -> Result<usize, SheetRefusal>
    ensures { SheetWritten (book_bytes book.now) buffer.old buffer.new result }
{
    let mut sheet = EmptySheet::new().open(buffer, count_jobs(book))?;
    fill(book, &mut sheet, buffer, workspace)?;
    let Ok(closed) = sheet.close() else {
        return unreachable();
    };
    Ok(closed.len())
}

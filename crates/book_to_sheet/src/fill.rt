// The answers to the jobs of a book, put on an open sheet one behind the other.
ghost use Rattle.std.specs.Prelude.{◌≡◌};
ghost use Rattle.book.specs.Held.{book_bytes};
ghost use Rattle.sheet.specs.States.{state};
ghost use Rattle.book_to_sheet.specs.Entries.{parts_of, numbered_steps};
ghost use Rattle.book_to_sheet.specs.Told.{answer_steps};
ghost use Rattle.book_to_sheet.specs.Filled.{BodyPut, EntryPut, Filled};

use crate::entries::answer_entry;
use crate::list::List;
use crate::workspace::Workspace;
use book::read::Book;
use plant::refusal::Refusal;
use sheet::refusal::SheetRefusal;
use sheet::states::OpenSheet;

// Puts the answer to a job on the sheet: answer 0 with the count and the list, or the refusal's number with nothing behind it.
fn put_answer(
    answer: Result<List, Refusal>,
    sheet: &mut OpenSheet,
    buffer: &mut [u8],
) -> Result<(), SheetRefusal>
    ensures { BodyPut (answer_steps answer) (state sheet.old) (state sheet.new) buffer.old buffer.new result }
{
    match answer {
        Ok(list) => sheet.put(buffer, 0, list.count, &list.place[0..list.length as usize]),
        Err(refusal) => sheet.put(buffer, refusal.code(), 0, &[]),
    }
}

// Puts the answer to the entry with this number on the sheet, if it is a job. Refused where there is no room for it.
fn put_entry(
    book: &Book,
    number: u8,
    sheet: &mut OpenSheet,
    buffer: &mut [u8],
    workspace: &mut Workspace,
) -> Result<(), SheetRefusal>
    ensures { EntryPut (numbered_steps (parts_of book.now) number) (state sheet.old) (state sheet.new) buffer.old buffer.new result }
{
    match answer_entry(book, number, workspace) {
        Some(answer) => put_answer(answer, sheet, buffer),
        None => Ok(()),
    }
}

// Puts the answers to all jobs on the sheet, in their order. Refused where there is no room for one.
pub(crate) fn fill(
    book: &Book,
    sheet: &mut OpenSheet,
    buffer: &mut [u8],
    workspace: &mut Workspace,
) -> Result<(), SheetRefusal>
    ensures { Filled (book_bytes book.now) (state sheet.old) (state sheet.new) buffer.old buffer.new result }
{
    for number in 0..book.len() {
        put_entry(book, number, sheet, buffer, workspace)?;
    }
    Ok(())
}

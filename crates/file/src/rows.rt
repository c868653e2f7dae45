// The rows of the contents, taken one after another.
ghost use Rattle.std.specs.Prelude.{◌≡◌, ◌*◌, ◌≤◌, drop};
ghost use Rattle.std.specs.Result.{result_err};
ghost use Rattle.file.specs.Contents.{row_kind, rows_fault, rows_length};
ghost use Rattle.file.specs.Kinds.{kind_of};
ghost use Rattle.file.specs.Taken.{RowTaken, row_fault};

use crate::kind::{Kind, Reader, kind_of};
use crate::row::{Row, Rows};
use faults::fault::ContentsFault;
use numbers::word;

impl<'a> Rows<'a> {
    // The next row and those behind it; none where none is left.
    pub(crate) fn split_first(self) -> Option<(Row, Rows<'a>)>
        ensures { RowTaken self.entry result }
    {
        if self.left == 0 {
            return None;
        }
        let [kind, zero, low, high, after @ ..] = self.bytes else {
            return unreachable();
        };
        let row = Row {
            number: self.number,
            kind: kind_of(*kind),
            zero: *zero,
            length: word(*low, *high),
        };
        let rest = Rows {
            number: self.number + 1,
            left: self.left - 1,
            bytes: after,
        };
        Some((row, rest))
    }

    // The kind of the row that is so many behind the first; none past the bytes.
    pub(crate) fn kind_at(self, number: u8) -> Option<Kind>
        ensures { result ≡ kind_of (row_kind (drop (4 * number) self.entry.bytes.now)) }
    {
        let byte = self.bytes.get(4 * number as usize)?;
        kind_of(*byte)
    }
}

// What is wrong first with a row: the kind, then the byte behind it.
fn check_row(reader: Reader, row: Row) -> Result<(), ContentsFault>
    ensures { result_err result ≡ row_fault reader row }
{
    if !reader.takes_kind(row.kind) {
        return Err(ContentsFault::Kind(row.number));
    }
    if row.zero != 0 {
        return Err(ContentsFault::RowZero(row.number));
    }
    Ok(())
}

// Checks the rows, one after another.
pub(crate) fn check_rows(reader: Reader, rows: Rows) -> Result<(), ContentsFault>
    ensures { result_err result ≡ rows_fault reader rows.entry.left rows.entry.number rows.entry.bytes.now }
{
    let mut rest = rows;
    // Stays: taken by `split_first`; an `Iterator` would need a second definition of what is left, and lemmas between the two.
    while let Some((row, after)) = rest.split_first() {
        check_row(reader, row)?;
        rest = after;
    }
    Ok(())
}

// How many bytes the bodies of the rows take together.
pub(crate) fn rows_length(rows: Rows) -> usize
    ensures sum { result ≡ rows_length rows.entry.left rows.entry.bytes.now }
    ensures few { result ≤ 65535 * rows.entry.left }
{
    let mut rest = rows;
    let mut total = 0usize;
    // Stays: taken by `split_first`; an `Iterator` would need a second definition of what is left, and lemmas between the two.
    while let Some((row, after)) = rest.split_first() {
        total += row.length as usize;
        rest = after;
    }
    total
}

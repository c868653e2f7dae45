// An open sheet: bodies are put on it one by one, and it is closed once all are there.
ghost use Rattle.std.specs.Prelude.{◌≡◌, ℕ, ◌+◌, ◌*◌, List, [], ◌∷◌, ◌++◌, length, Some, None, Ok, Err};
ghost use Rattle.std.specs.Result.{result_err};
ghost use Rattle.sheet.specs.Steps.{steps, go_together};
ghost use Rattle.sheet.specs.States.{state, closed_length, put_refusal, put_refusal_by, put_state, put_bytes, close_refusal, unless, GoesOn, Completes};

use crate::refusal::SheetRefusal;
use crate::states::{ClosedSheet, NotClosed, OpenSheet};
use crate::write::{write_body, write_row};

// The most operations of a body.
const OPERATIONS: usize = 255;

// Whether an answer, a count and so many operations make a body.
fn keeps_rule(answer: u8, count: u64, operations: usize) -> bool
    ensures { result ≡ go_together answer count operations }
{
    match answer {
        0 => operations <= OPERATIONS,
        4..=7 => count == 0 && operations == 0,
        _ => false,
    }
}

impl OpenSheet {
    // Refuses a body of so many operations that cannot be put on a buffer of so many bytes.
    fn check(
        &self,
        room: usize,
        answer: u8,
        count: u64,
        operations: usize,
    ) -> Result<(), SheetRefusal>
        ensures { result_err result ≡ put_refusal_by (state self.now) (go_together answer count operations) operations room }
    {
        if !keeps_rule(answer, count, operations) {
            return Err(SheetRefusal::Body);
        }
        if self.filled >= self.declared {
            return Err(SheetRefusal::OverCount);
        }
        if room < self.end + (10 + 2 * operations) {
            return Err(SheetRefusal::ShortSheet);
        }
        Ok(())
    }

    // Stays: the answer as a number, since a body with a wrong one is refused by its rule.
    // Writes a body straight behind the one before and fills its row. Refuses a body that breaks its rule, then one
    // more than declared, then one for which the buffer has no room; a refusal changes nothing.
    pub fn put(
        &mut self,
        buffer: &mut [u8],
        answer: u8,
        count: u64,
        operations: &[u16],
    ) -> Result<(), SheetRefusal>
        ensures refusal { result_err result ≡ put_refusal (state self.old) (steps answer count operations.now) (length buffer.old) }
        ensures sheet { state self.new ≡ unless (result_err result) (state self.old) (put_state (state self.old) (steps answer count operations.now)) }
        ensures bytes { buffer.new ≡ unless (result_err result) buffer.old (put_bytes (state self.old) (steps answer count operations.now) buffer.old) }
        ensures written { GoesOn (result_err result) (state self.old) (state self.new) (steps answer count operations.now) buffer.old buffer.new }
    {
        self.check(buffer.len(), answer, count, operations.len())?;
        let length = 10 + 2 * operations.len();
        let end = self.end;
        let row = 2 + 4 * self.filled as usize;
        write_body(&mut buffer[end..end + length], answer, count, operations);
        write_row(&mut buffer[row..row + 4], length);
        self.filled += 1;
        self.end = end + length;
        Ok(())
    }

    // Closes the sheet; with bodies missing the open sheet is handed back.
    pub fn close(self) -> Result<ClosedSheet, NotClosed>
        ensures cases { elim result [ Ok s ↦ (close_refusal (state self) ≡ None) × (closed_length s ≡ (state self).end) × Completes (state self) (closed_length s) | Err e ↦ (close_refusal (state self) ≡ Some e.refusal) × (e.sheet ≡ self) ] }
    {
        if self.filled < self.declared {
            return Err(NotClosed {
                sheet: self,
                refusal: SheetRefusal::UnderCount,
            });
        }
        Ok(ClosedSheet { length: self.end })
    }
}

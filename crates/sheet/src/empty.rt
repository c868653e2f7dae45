// An empty sheet: it can be opened, and nothing else.
ghost use Rattle.std.specs.Prelude.{◌≡◌, ◌+◌, ◌*◌, [], length, drop, IfOk};
ghost use Rattle.std.specs.Result.{result_err};
ghost use Rattle.sheet.specs.States.{state, opened, open_refusal, opened_bytes, unless, Written};

use crate::refusal::SheetRefusal;
use crate::states::{EmptySheet, OpenSheet};
use crate::write::write_head;

// The most bodies of a sheet.
const BODIES: usize = 64;

impl EmptySheet {
    // There is one empty sheet: it holds nothing.
    pub fn new() -> EmptySheet
        ensures { result ≡ record {} }
    {
        EmptySheet {}
    }

    // Opens the sheet for so many bodies: writes the head and a row of zeros for each. Refuses more than 64 bodies,
    // then a buffer with no room for head and rows.
    pub fn open(self, buffer: &mut [u8], bodies: usize) -> Result<OpenSheet, SheetRefusal>
        ensures refusal { result_err result ≡ open_refusal bodies (length buffer.old) }
        ensures sheet { IfOk result (λ s. state s ≡ opened bodies) }
        ensures bytes { buffer.new ≡ unless (open_refusal bodies (length buffer.old)) buffer.old (opened_bytes bodies buffer.old) }
        ensures written { IfOk result (λ s. Written (state s) buffer.new [] (drop (2 + 4 * bodies) buffer.old)) }
    {
        if bodies > BODIES {
            return Err(SheetRefusal::Contents);
        }
        let end = 2 + 4 * bodies;
        if buffer.len() < end {
            return Err(SheetRefusal::ShortSheet);
        }
        write_head(&mut buffer[0..end], bodies as u8);
        Ok(OpenSheet {
            declared: bodies as u8,
            filled: 0,
            end,
        })
    }
}

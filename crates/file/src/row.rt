// The rows of the contents that are left to be taken.
ghost use Rattle.std.specs.Prelude.{◌+◌, ◌*◌, ◌≤◌, length};

use crate::kind::Kind;

// A row with its number: the kind, the byte behind it, and how long the body is.
#[derive(Clone, Copy)]
pub(crate) struct Row {
    pub(crate) number: u8,
    pub(crate) kind: Option<Kind>,
    pub(crate) zero: u8,
    pub(crate) length: u16,
}

// So many rows are left, of which the first has this number. Behind their bytes there may be more.
#[derive(Clone, Copy)]
pub(crate) struct Rows<'a> {
    pub(crate) number: u8,
    pub(crate) left: u8,
    pub(crate) bytes: &'a [u8],
    ghost there: { 4 * left ≤ length bytes.now },
    ghost numbered: { number + left ≤ 255 },
}

// The bodies of a file that are left to be taken, each with its row.
ghost use Rattle.std.specs.Prelude.{◌≡◌, ◌+◌, ◌≤◌, length};
ghost use Rattle.file.specs.Contents.{rows_length};

use crate::kind::Kind;
use crate::row::Rows;

// A body as a part of the file, with the byte at which it begins, and the number and the kind of its row.
#[derive(Clone, Copy)]
pub(crate) struct Body<'a> {
    pub(crate) number: u8,
    pub(crate) kind: Option<Kind>,
    pub(crate) place: u16,
    pub(crate) bytes: &'a [u8],
}

// The bodies of the rows that are left begin at this byte of the file, and end it.
#[derive(Clone, Copy)]
pub(crate) struct Bodies<'a> {
    pub(crate) file: &'a [u8],
    pub(crate) rows: Rows<'a>,
    pub(crate) place: u16,
    ghost few: { length file.now ≤ 65535 },
    ghost whole: { place + rows_length rows.left rows.bytes.now ≡ length file.now },
}

// The entries of a file that was read without a fault.
ghost use Rattle.std.specs.Prelude.{◌≡◌, false, is_some};
ghost use Rattle.file.specs.Read.{entries, rows, contents_end, read_fault};

use crate::body::Bodies;
use crate::kind::Reader;

#[derive(Clone, Copy)]
pub struct Entries<'a> {
    pub(crate) reader: Reader,
    pub(crate) bodies: Bodies<'a>,
    ghost faultless: { is_some (read_fault reader bodies.file.now) ≡ false },
    ghost all: { bodies.rows.left ≡ entries bodies.file.now },
    ghost rows: { bodies.rows.bytes.now ≡ rows bodies.file.now },
    ghost begin: { bodies.place ≡ contents_end bodies.file.now },
}

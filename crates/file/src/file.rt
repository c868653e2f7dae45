// A file with its entries, or what was found wrong with it first.
ghost use Rattle.std.specs.Prelude.{◌≡◌, is_some};
ghost use Rattle.std.specs.Result.{result_err};
ghost use Rattle.file.specs.Read.{read_fault};
ghost use Rattle.file.specs.Held.{held_bytes};

use crate::entries::Entries;
use crate::kind::Reader;
use faults::fault::FileFault;

#[derive(Clone, Copy)]
pub struct File<'a> {
    pub(crate) reader: Reader,
    pub(crate) bytes: &'a [u8],
    pub(crate) entries: Result<Entries<'a>, FileFault>,
    ghost checked: { is_some (result_err entries) ≡ is_some (read_fault reader bytes.now) },
    ghost own: { held_bytes bytes.now entries ≡ bytes.now },
}

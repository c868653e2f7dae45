// A closed sheet.
ghost use Rattle.std.specs.Prelude.{◌≡◌};
ghost use Rattle.sheet.specs.States.{closed_length};

use crate::states::ClosedSheet;

impl ClosedSheet {
    // How many bytes at the begin of the buffer are the sheet.
    pub fn len(&self) -> usize
        ensures { result ≡ closed_length self.now }
    {
        self.length
    }
}

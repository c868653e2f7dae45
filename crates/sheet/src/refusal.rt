// Why a call on a sheet is refused, with the number of each refusal given here and nowhere else.
ghost use Rattle.std.specs.Prelude.{◌≡◌};
ghost use Rattle.sheet.specs.Refusals.{number};

#[derive(Clone, Copy, PartialEq, Eq, Debug)]
pub enum SheetRefusal {
    // more bodies declared than a sheet can have
    Contents = 11,
    // the body breaks its rule
    Body = 12,
    // the buffer is too short
    ShortSheet = 13,
    // all declared bodies are there already
    OverCount = 15,
    // closed with bodies missing
    UnderCount = 16,
}

impl SheetRefusal {
    // The refusal's number in the table of refusals.
    pub fn code(self) -> u8
        ensures { result ≡ number self }
    {
        self as u8
    }
}

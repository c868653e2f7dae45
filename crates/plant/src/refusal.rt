// Why a call is refused: the names of the refusals, with the number of each given here and nowhere else.
ghost use Rattle.std.specs.Prelude.{◌≡◌};
ghost use Rattle.plant.specs.Refusals.{number};

#[derive(Clone, Copy, PartialEq, Eq, Debug)]
pub enum Refusal {
    NoSuchOperation = 1,
    TaggedAlready = 2,
    Untagged = 3,
    NoSuchSetting = 4,
    Bound = 5,
    Overfull = 6,
    OutOfReach = 7,
    NoList = 8,
    WrongOperation = 9,
}

impl Refusal {
    // The refusal's number in the table of refusals.
    pub fn code(self) -> u8
        ensures { result ≡ number self }
    {
        self as u8
    }
}

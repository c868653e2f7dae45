// The kinds of entries, and the readers that take all of them or steps bodies alone.
ghost use Rattle.std.specs.Prelude.{◌≡◌};
ghost use Rattle.file.specs.Kinds.{kind_of, KindRead, takes, takes_kind, is_plant};

// The number of a kind is its byte in the contents.
#[derive(Clone, Copy, PartialEq, Eq, Debug)]
pub enum Kind {
    Valves = 1,
    Track = 2,
    Job = 3,
    Steps = 4,
}

// A byte that is the number of no kind.
#[derive(Clone, Copy, PartialEq, Eq, Debug)]
pub struct UnknownKind(pub u8);

impl TryFrom<u8> for Kind {
    type Error = UnknownKind;

    ghost try_from_gives = { KindRead };

    fn try_from(byte: u8) -> Result<Self, UnknownKind> {
        match byte {
            1 => Ok(Kind::Valves),
            2 => Ok(Kind::Track),
            3 => Ok(Kind::Job),
            4 => Ok(Kind::Steps),
            _ => Err(UnknownKind(byte)),
        }
    }
}

// The kind with this number, if there is one.
// Stays: a byte, here and in `takes`, since a narrower type would ask more of callers.
pub fn kind_of(byte: u8) -> Option<Kind>
    ensures { result ≡ kind_of byte }
{
    Kind::try_from(byte).ok()
}

// A book has entries of all kinds, a sheet steps bodies alone.
#[derive(Clone, Copy, PartialEq, Eq, Debug)]
pub enum Reader {
    AllKinds,
    StepsAlone,
}

impl Reader {
    // Whether an entry of the kind with this number is read.
    pub fn takes(self, byte: u8) -> bool
        ensures { result ≡ takes self byte }
    {
        self.takes_kind(kind_of(byte))
    }

    // Whether an entry of this kind is read.
    pub(crate) fn takes_kind(self, kind: Option<Kind>) -> bool
        ensures { result ≡ takes_kind self kind }
    {
        match self {
            Reader::AllKinds => kind.is_some(),
            Reader::StepsAlone => matches!(kind, Some(Kind::Steps)),
        }
    }
}

// Whether a job can name an entry of this kind.
pub(crate) fn is_plant(kind: Option<Kind>) -> bool
    ensures { result ≡ is_plant kind }
{
    matches!(kind, Some(Kind::Valves | Kind::Track))
}

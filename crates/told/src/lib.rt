// What a program prints of the answer to a call.
#![tactic(auto)]

ghost use Rattle.std.specs.Prelude.{Some};
ghost use Rattle.told.specs.Told.{told};

use plant::refusal::Refusal;
use std::fmt;

// The answer to a call that answers nothing else: printed as `accepted`, or as `refused` and the refusal's number.
#[derive(Clone, Copy, PartialEq, Eq, Debug)]
pub struct Told(pub Result<(), Refusal>);

impl fmt::Display for Told {
    ghost output = { λ t. Some (told t.0) };

    fn fmt<W: fmt::Write>(&self, f: &mut fmt::Formatter<W>) -> fmt::Result {
        match self.0 {
            Ok(()) => write!(f, "accepted"),
            Err(refusal) => {
                let number = refusal.code();
                write!(f, "refused {number}")
            }
        }
    }
}

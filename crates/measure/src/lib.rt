// Measures a leg: its length, and how many settings it expands.
#![tactic(auto)]

ghost use Rattle.std.specs.Prelude.{◌≡◌, length};
ghost use Rattle.legs.specs.Asked.{asked};
ghost use Rattle.legs.specs.Laws.{LegLaws};
ghost use Rattle.legs.specs.PlanLaws.{Measures};
ghost use Rattle.search.specs.Answered.{search_leaves};
ghost use Rattle.measure.specs.Measured.{Answers};

use legs::leg::Leg;
use plant::plant::Plant;
use plant::refusal::Refusal;
use search::clear::{clear_after, clear_all};
use search::leg_search::search_leg;

#[derive(Clone, Copy, PartialEq, Eq, Debug)]
pub struct Measured {
    pub length: u16,
    pub expanded: u64,
}

// The length of the leg, and the settings that it expands. Refused, in this order, where the start or the target is no
// setting, the bound is above 255, the leg needs more records than there are, or it has no length. After a search, refused
// or not, every record is zero; else they are as they were. The index is memory for looking settings up, of any length,
// none among them: it decides how long the search takes, and nothing else.
// Stays: records and index as two slices, since a struct of two `&mut` is told in contracts by ghost names.
pub fn measure<P: Plant>(
    plant: &P,
    leg: Leg,
    records: &mut [u32],
    index: &mut [u32],
) -> Result<Measured, Refusal>
    ensures answer { Answers (P.meaning plant.now) (asked leg) (length records.old) result }
    ensures records { records.new ≡ search_leaves 0 (P.meaning plant.now) (asked leg) records.old }
    ensures laws { LegLaws (P.meaning plant.now) }
    ensures least { Measures (P.meaning plant.now) }
{
    match search_leg(plant, leg, 0, records, index) {
        Ok(reached) => {
            clear_all(records);
            Ok(Measured {
                length: reached.length,
                expanded: reached.expanded,
            })
        }
        Err(refusal) => {
            clear_after(refusal, records);
            Err(refusal)
        }
    }
}

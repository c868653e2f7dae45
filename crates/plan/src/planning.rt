// Plans: the earliest of the shortest lists from one setting to another, within a bound.
ghost use Rattle.std.specs.Prelude.{◌≡◌, true, ◌||◌, length, replicate};
ghost use Rattle.legs.specs.Asked.{asked};
ghost use Rattle.legs.specs.Answers.{outside, too_high};
ghost use Rattle.legs.specs.PlanLaws.{PlanLaws};
ghost use Rattle.search.specs.Records.{relay_blank};
ghost use Rattle.search.specs.Answered.{search_leaves};
ghost use Rattle.plan.specs.Planned.{Answers, Found};

use crate::fetch::fetch;
use legs::leg::Leg;
use legs::relayed::Relayed;
use plant::plant::Plant;
use plant::refusal::Refusal;
use search::clear::{clear_after, clear_all};
use search::leg_search::search_leg;

// The length of the list that was planned, and the settings expanded in all legs.
#[derive(Clone, Copy, PartialEq, Eq, Debug)]
pub struct Planned {
    pub length: u16,
    pub count: u64,
}

// Plans the leg: the earliest of the shortest lists, written to the front of the place, with zero behind it. Refused, in
// this order, where the start or the target is no setting, the bound is above 255, some leg needs more records than there
// are, or no list within the bound leads there; the place then stays as it was. After a search, refused or not, every
// record is zero; else they are as they were. The index is memory for looking settings up, of any length, none among them:
// it decides how long the searches take, and nothing else.
// Stays: records and index as two slices, since a struct of two `&mut` is told in contracts by ghost names.
pub fn plan<P: Plant>(
    plant: &P,
    leg: Leg,
    records: &mut [Relayed],
    index: &mut [u32],
    list: &mut [u16; 255],
) -> Result<Planned, Refusal>
    ensures answer { Answers (P.meaning plant.now) (asked leg) (length records.old) list.old list.new result }
    ensures records { records.new ≡ search_leaves relay_blank (P.meaning plant.now) (asked leg) records.old }
    ensures laws { PlanLaws (P.meaning plant.now) }
{
    let mut place = [0u16; 255];
    match find_list(plant, leg, records, index, &mut place) {
        Ok(planned) => {
            clear_all(records);
            *list = place;
            Ok(planned)
        }
        Err(refusal) => {
            clear_after(refusal, records);
            Err(refusal)
        }
    }
}

// The first leg, and the list of its length fetched into a place of zeros.
fn find_list<P: Plant>(
    plant: &P,
    leg: Leg,
    records: &mut [Relayed],
    index: &mut [u32],
    place: &mut [u16],
) -> Result<Planned, Refusal>
    requires { place.old ≡ replicate 255 0 }
    ensures found { Found (P.meaning plant.now) (asked leg) (length records.old) place.new result }
    ensures kept { (outside (P.meaning plant.now) (asked leg) || too_high (asked leg)) ≡ true → records.new ≡ records.old }
{
    let reached = search_leg(plant, leg, 0, records, index)?;
    let list = &mut place[0..reached.length as usize];
    let fetched = fetch(plant, leg.start, leg.target, records, index, list).ok_or(
        Refusal::Overfull,
    )?;
    Ok(Planned {
        length: reached.length,
        count: reached.expanded + fetched,
    })
}

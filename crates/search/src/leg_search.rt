// The search of one leg, over any plant and any kind of record: the call that measures and plans are made of.
ghost use Rattle.std.specs.Prelude.{◌≡◌, ◌<◌, ◌≤◌, length};
ghost use Rattle.std.specs.Result.{result_ok};
ghost use Rattle.legs.specs.Legs.{need};
ghost use Rattle.search.specs.Records.{kind};
ghost use Rattle.legs.specs.Asked.{asked};
ghost use Rattle.search.specs.Walked.{RunThrough};
ghost use Rattle.search.specs.Answered.{LegAnswer, leg_leaves, Searched, zeroed};

use crate::chains::Chains;
use crate::clear::{blank_front, clear_all};
use crate::lookup::Scan;
use crate::marks::Marks;
use crate::one_leg::{Walk, walk_leg};
use crate::overfull::Overfull;
use crate::record::Record;
use crate::task::Task;
use legs::leg::Leg;
use plant::plant::Plant;
use plant::refusal::Refusal;

// The most operations that a bound may allow.
const MOST: u16 = 255;

// What a leg came to: its length, the settings expanded, and the record with which the target was reached.
#[derive(Drop)]
pub struct Reached<R> {
    pub length: u16,
    pub expanded: u64,
    pub record: R,
}

// Searches the leg; relays are taken at the depth `half`. Refused where the start or the target is no setting, the bound is
// above 255, the leg needs more records than there are, or has no length. It leaves zero in the records that it needs, and
// the others as they were; for the first two refusals all of them. The index is memory for looking settings up, of any
// length, none among them: it decides how long the search takes, and nothing else. What it holds before does not matter,
// and what it holds after is open.
// Stays: records and index as two slices, since a struct of two `&mut` is told in contracts by ghost names.
pub fn search_leg<P: Plant, R: Record>(
    plant: &P,
    leg: Leg,
    half: u16,
    records: &mut [R],
    index: &mut [u32],
) -> Result<Reached<R>, Refusal>
    ensures answer { LegAnswer (P.meaning plant.now) (kind R.Record.tells R.Record.opens R.Record.carries half) (asked leg) (length records.old) result }
    ensures records { records.new ≡ leg_leaves R.Record.blank (P.meaning plant.now) (asked leg) records.old }
{
    let settings = plant.settings();
    if leg.start >= settings {
        return Err(Refusal::NoSuchSetting);
    }
    if leg.target >= settings {
        return Err(Refusal::NoSuchSetting);
    }
    if leg.bound > MOST {
        return Err(Refusal::Bound);
    }
    search_within(Task { plant, leg, half }, records, index)
}

// The search, where start, target and bound are in range.
fn search_within<P: Plant, R: Record>(
    task: Task<P>,
    records: &mut [R],
    index: &mut [u32],
) -> Result<Reached<R>, Refusal>
    ensures answer { Searched (P.meaning task.entry.plant.now) (kind R.Record.tells R.Record.opens R.Record.carries task.entry.half) (asked task.entry.leg) (length records.old) result }
    ensures records { records.new ≡ zeroed R.Record.blank (need (P.meaning task.entry.plant.now) (asked task.entry.leg)) records.old }
{
    // No leg goes without a record: so much is known before an index is cleared.
    // Stays: after `is_empty()` the check knows no more what the records hold.
    if records.len() == 0 {
        return Err(Refusal::Overfull);
    }
    match walk_by(task, records, index) {
        Ok(Walk { ended, hit }) => {
            blank_front(records, ended.used);
            let record = hit.ok_or(Refusal::OutOfReach)?;
            Ok(Reached {
                length: ended.depth,
                expanded: ended.expanded,
                record,
            })
        }
        Err(Overfull) => {
            clear_all(records);
            Err(Refusal::Overfull)
        }
    }
}

// Searches the leg with the way of looking up that the index allows: marks where it has a bit for each setting of the
// plant, else chains where it has more numbers than there are records, else record by record. For chains to be short,
// lend two to three times as many numbers as records.
fn walk_by<P: Plant, R: Record>(
    task: Task<P>,
    records: &mut [R],
    index: &mut [u32],
) -> Result<Walk<R>, Overfull>
    ensures { RunThrough (P.meaning task.entry.plant.now) (kind R.Record.tells R.Record.opens R.Record.carries task.entry.half) (asked task.entry.leg) records.old records.new (result_ok result) }
{
    let words = (task.plant.settings() as usize + 31) / 32;
    if words <= index.len() {
        let mut marks = Marks::over(&mut index[0..words]);
        return walk_leg(task, records, &mut marks);
    }
    let count = records.len();
    if count < index.len() {
        let mut chains = Chains::over(index, count);
        return walk_leg(task, records, &mut chains);
    }
    walk_leg(task, records, &mut Scan)
}

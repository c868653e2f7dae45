// Fetches a list of the least length by halves: a leg finds the setting half way, and both halves are fetched alike.
ghost use Rattle.std.specs.Prelude.{◌≡◌, ◌<◌, ◌≤◌, length};
ghost use Rattle.legs.specs.Lists.{Distance};
ghost use Rattle.plan.specs.Fetched.{Fetched};

use crate::lowest::lowest_step;
use legs::leg::Leg;
use legs::relayed::Relayed;
use plant::plant::Plant;
use search::leg_search::search_leg;

// Fills the list, which is as long as the least length, with the earliest operations from start to target; answers the
// settings expanded, or none where a leg needs more records than there are.
// Stays: an option, since a leg of a fetch is refused for want of records alone; and two slices, as in `plan`.
pub(crate) fn fetch<P: Plant>(
    plant: &P,
    start: u32,
    target: u32,
    records: &mut [Relayed],
    index: &mut [u32],
    list: &mut [u16],
) -> Option<u64>
    requires start { start < (P.meaning plant.now).settings }
    requires target { target < (P.meaning plant.now).settings }
    requires short { length list.old ≤ 255 }
    requires distance { Distance (P.meaning plant.now) (length list.old) start target }
    ensures { Fetched (P.meaning plant.now) (length list.old) start target (length records.old) list.new result }
{
    let count = list.len();
    if count == 0 {
        return Some(0);
    }
    if count == 1 {
        list[0] = lowest_step(plant, start, target)?;
        return Some(0);
    }
    let half = count / 2;
    let leg = Leg {
        start,
        target,
        bound: count as u16,
    };
    let reached = search_leg(plant, leg, half as u16, records, index).ok()?;
    let relay = reached.record.relay;
    let (front, back) = list.split_at_mut(half);
    let first = fetch(plant, start, relay, records, index, front)?;
    let second = fetch(plant, relay, target, records, index, back)?;
    Some(reached.expanded + first + second)
}

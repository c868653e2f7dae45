// The search of a leg as it goes on: the layers that stand, and a lookup that follows them. The layer before, the one that
// is being expanded and the next as far as it is filled stand one behind the other at the front of the caller's slice, and
// no more records than that.
ghost use Rattle.std.specs.Prelude.{◌≡◌, ◌+◌, ◌≤◌, false, map, length, take};

use crate::lookup::Lookup;
use crate::overfull::Overfull;
use crate::record::Record;
use crate::sizes::Sizes;
use crate::task::Task;
use plant::plant::Plant;

#[derive(Drop)]
pub(crate) struct Search<'p, 'a, P: Plant, R: Record, L: Lookup<R>> {
    pub(crate) task: Task<'p, P>,
    pub(crate) room: &'a mut [R],
    pub(crate) sizes: Sizes,
    pub(crate) lookup: L,
    ghost within: { sizes.before + sizes.present + sizes.next ≤ length room.now },
    ghost followed: { ∥ L.follows lookup (map R.tells (take (sizes.before + sizes.present + sizes.next) room.now)) ∥₁ },
}

// Stays: each method says that the task and the lender of the records are as they were; no field can say so of a call.
impl<'p, 'a, P: Plant, R: Record, L: Lookup<R>> Search<'p, 'a, P, R, L> {
    ghost use Rattle.std.specs.Result.{is_ok};
    ghost use Rattle.legs.specs.Layers.{has, fits};
    ghost use Rattle.legs.specs.Asked.{asked};
    ghost use Rattle.search.specs.Stored.{store_of, count, standing, present_records, Pushed};
    ghost use Rattle.search.specs.Walked.{Hit};

    // How many records stand.
    pub(crate) fn count(&self) -> usize
        ensures { result ≡ count (store_of self.now) }
    {
        self.sizes.before + self.sizes.present + self.sizes.next
    }

    // The records of the present layer.
    pub(crate) fn present_layer(&self) -> &[R]
        ensures { result.now ≡ present_records (store_of self.now) }
    {
        let front = self.sizes.before;
        let end = self.sizes.before + self.sizes.present;
        &self.room[front..end]
    }

    // The record of a setting in the present layer.
    pub(crate) fn record_of(&self, setting: u32) -> Option<R>
        ensures { Hit R.Record.tells (present_records (store_of self.now)) setting result }
    {
        let layer = self.present_layer();
        layer
            .iter()
            .find(|record| record.setting() == setting)
            .copied()
    }

    // Whether a record with this setting stands.
    pub(crate) fn meets(&self, setting: u32) -> bool
        ensures { result ≡ has (map R.Record.tells (standing (store_of self.now))) setting }
    {
        let count = self.count();
        self.lookup.meets(&self.room[0..count], setting)
    }

    // Whether a setting met at the depth may still reach the target within the bound, as far as the estimate tells.
    pub(crate) fn admits(&self, depth: u16, setting: u32) -> bool
        ensures { result ≡ fits (P.meaning self.now.task.plant.now) (asked self.now.task.leg) depth setting }
    {
        let leg = self.task.leg;
        self.task.plant.estimate(setting, leg.target) as u32 + depth as u32 <= leg.bound as u32
    }

    // Takes in a record behind the others, which do not have its setting.
    pub(crate) fn push(&mut self, new: R) -> Result<(), Overfull>
        requires { has (map R.Record.tells (standing (store_of self.old))) (R.Record.tells new) ≡ false }
        ensures pushed { Pushed (store_of self.old) (store_of self.new) new (is_ok result) }
        ensures task { self.new.task ≡ self.old.task }
        ensures lender { self.new.room.ghost_name ≡ self.old.room.ghost_name }
    {
        let place = self.count();
        if place >= self.room.len() {
            return Err(Overfull);
        }
        self.room[place] = new;
        self.lookup.enter(place, new.setting());
        self.sizes.next += 1;
        Ok(())
    }
}

// Asking for a list. A refused plan keeps the old list and target.
ghost use Rattle.std.specs.Prelude.{◌≡◌, length};
ghost use Rattle.tagged.specs.Meaning.{tagged};
ghost use Rattle.search.specs.Answered.{search_leaves};
ghost use Rattle.search.specs.Leg.{leg};
ghost use Rattle.search.specs.Records.{relay_blank};
ghost use Rattle.promise.specs.Calls.{plan as planning};
ghost use Rattle.promise.specs.Promise.{KeepsOn};
ghost use Rattle.sequencer.specs.State.{state_of, under, Planned};

use crate::sequencer::Sequencer;
use crate::sequencer::table::Table;
use legs::leg::Leg;
use legs::relayed::Relayed;
use plan::planning::plan;
use plant::plant::Plant;
use plant::refusal::Refusal;

impl<P: Plant> Sequencer<P> {
    // The list in hand is the earliest of the shortest from the present setting to the target, by untagged operations
    // and within the bound, worked out in the records that are lent; answers how many settings were expanded. Refused
    // where there is no such setting, then where the bound is above 255, then where a leg needs more records, then where
    // the target is out of reach. The index is memory for looking settings up, of any length, none among them: it
    // decides how long the searches take, and nothing else.
    pub fn plan(
        &mut self,
        target: u32,
        bound: u16,
        records: &mut [Relayed],
        index: &mut [u32],
    ) -> Result<u64, Refusal>
        ensures carried { Planned (P.meaning (under self.old)) (state_of self.old) target bound (length records.old) (state_of self.new) result }
        ensures same { under self.new ≡ under self.old }
        ensures promise { KeepsOn (P.meaning (under self.old)) (state_of self.old) (planning target bound (length records.old)) (state_of self.new) }
        ensures records { records.new ≡ search_leaves relay_blank (tagged (P.meaning (under self.old)) (state_of self.old).tags) (leg (state_of self.old).setting target bound) records.old }
    {
        let leg = Leg {
            start: self.setting,
            target,
            bound,
        };
        let mut operations = [0u16; 255];
        let planned = plan(&self.plant, leg, records, index, &mut operations)?;
        self.list = Some(Table::new(operations, planned.length, target));
        Ok(planned.count)
    }
}

// Tagging and untagging operations. A refused call changes nothing.
ghost use Rattle.std.specs.Prelude.{◌≡◌};
ghost use Rattle.promise.specs.Calls.{tag as tagging, untag as untagging};
ghost use Rattle.promise.specs.Promise.{KeepsOn};
ghost use Rattle.sequencer.specs.State.{state_of, under, Carried};

use crate::sequencer::Sequencer;
use plant::plant::Plant;
use plant::refusal::Refusal;

impl<P: Plant> Sequencer<P> {
    // Tags the operation and its reverse; the list goes if either is still to be done. Refused where there is no such
    // operation, then where it is tagged already.
    pub fn tag(&mut self, operation: u16) -> Result<(), Refusal>
        ensures carried { Carried (P.meaning (under self.old)) (state_of self.old) (tagging operation) (state_of self.new) result }
        ensures same { under self.new ≡ under self.old }
        ensures promise { KeepsOn (P.meaning (under self.old)) (state_of self.old) (tagging operation) (state_of self.new) }
    {
        self.plant.tag(operation)?;
        let plant = self.plant.below();
        if self
            .list
            .as_ref()
            .is_some_and(|list| list.touches(plant, operation))
        {
            self.list = None;
        }
        Ok(())
    }

    // Frees the operation and its reverse; the list goes. Refused where there is no such operation, then where it is not
    // tagged.
    pub fn untag(&mut self, operation: u16) -> Result<(), Refusal>
        ensures carried { Carried (P.meaning (under self.old)) (state_of self.old) (untagging operation) (state_of self.new) result }
        ensures same { under self.new ≡ under self.old }
        ensures promise { KeepsOn (P.meaning (under self.old)) (state_of self.old) (untagging operation) (state_of self.new) }
    {
        self.plant.untag(operation)?;
        self.list = None;
        Ok(())
    }
}

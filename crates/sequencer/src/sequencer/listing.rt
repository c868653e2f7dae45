// Working along the list in hand, and dropping it. A refused call changes nothing.
ghost use Rattle.std.specs.Prelude.{◌≡◌};
ghost use Rattle.promise.specs.Calls.{done as doing, drop_list};
ghost use Rattle.promise.specs.Promise.{KeepsOn};
ghost use Rattle.sequencer.specs.State.{state_of, under, Carried};

use crate::sequencer::Sequencer;
use plant::plant::Plant;
use plant::refusal::Refusal;

impl<P: Plant> Sequencer<P> {
    // The first operation of the list is done: the setting steps by it, and the list loses it. Refused where no list is
    // in hand, then where the operation is not the first of those still to be done.
    pub fn done(&mut self, operation: u16) -> Result<(), Refusal>
        ensures carried { Carried (P.meaning (under self.old)) (state_of self.old) (doing operation) (state_of self.new) result }
        ensures same { under self.new ≡ under self.old }
        ensures promise { KeepsOn (P.meaning (under self.old)) (state_of self.old) (doing operation) (state_of self.new) }
    {
        self.list
            .as_mut()
            .ok_or(Refusal::NoList)?
            .advance(operation)?;
        if let Some(next) = self.plant.below().step(self.setting, operation) {
            self.setting = next;
        }
        Ok(())
    }

    // The list goes. Refused where none is in hand.
    pub fn drop_list(&mut self) -> Result<(), Refusal>
        ensures carried { Carried (P.meaning (under self.old)) (state_of self.old) drop_list (state_of self.new) result }
        ensures same { under self.new ≡ under self.old }
        ensures promise { KeepsOn (P.meaning (under self.old)) (state_of self.old) drop_list (state_of self.new) }
    {
        if self.list.is_none() {
            return Err(Refusal::NoList);
        }
        self.list = None;
        Ok(())
    }
}

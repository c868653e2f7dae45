// What a sequencer tells.
ghost use Rattle.std.specs.Prelude.{◌≡◌};
ghost use Rattle.tagged.specs.Tags.{bears};
ghost use Rattle.sequencer.specs.State.{state_of, under};
ghost use Rattle.sequencer.specs.Questions.{target_of, length_of, operation_of};

use crate::sequencer::Sequencer;
use plant::plant::Plant;

impl<P: Plant> Sequencer<P> {
    // The present setting.
    pub fn setting(&self) -> u32
        ensures { result ≡ (state_of self.now).setting }
    {
        self.setting
    }

    // Whether the operation bears a tag of this sequencer. Out of range, false.
    pub fn is_tagged(&self, operation: u16) -> bool
        ensures { result ≡ bears (P.meaning (under self.now)) (state_of self.now).tags operation }
    {
        self.plant.is_tagged(operation)
    }

    // The target of the list in hand, if there is one.
    pub fn target(&self) -> Option<u32>
        ensures { result ≡ target_of (state_of self.now).list }
    {
        self.list.as_ref().map(|list| list.target())
    }

    // How many operations of the list in hand are still to be done, if there is one.
    pub fn length(&self) -> Option<u16>
        ensures { result ≡ length_of (state_of self.now).list }
    {
        self.list.as_ref().map(|list| list.length())
    }

    // The operation at a place, from 0, among those still to be done. None past the end, and where no list is in hand.
    pub fn operation(&self, place: u16) -> Option<u16>
        ensures { result ≡ operation_of (state_of self.now).list place }
    {
        self.list.as_ref()?.operation(place)
    }
}

// Making a sequencer, and moving its plant by hand.
ghost use Rattle.std.specs.Prelude.{◌≡◌, []};
ghost use Rattle.promise.specs.Calls.{hand_move};
ghost use Rattle.promise.specs.States.{fresh};
ghost use Rattle.promise.specs.Promise.{Holds, KeepsOn};
ghost use Rattle.sequencer.specs.State.{state_of, under, Carried};

use crate::sequencer::Sequencer;
use plant::plant::Plant;
use plant::refusal::Refusal;
use tagged::tagged::Tagged;

impl<P: Plant> Sequencer<P> {
    // A sequencer over the plant, at setting 0, with no tag of its own and no list.
    pub fn new(plant: P) -> Sequencer<P>
        ensures fresh { state_of result ≡ fresh }
        ensures same { under result ≡ plant }
        ensures promise { Holds (P.meaning plant) [] (state_of result) }
    {
        Sequencer {
            plant: Tagged::new(plant),
            setting: 0,
            list: None,
        }
    }

    // The plant was moved by hand: the setting is the given one, and the list goes. Refused where there is no such
    // setting.
    pub fn hand_move(&mut self, setting: u32) -> Result<(), Refusal>
        ensures carried { Carried (P.meaning (under self.old)) (state_of self.old) (hand_move setting) (state_of self.new) result }
        ensures same { under self.new ≡ under self.old }
        ensures promise { KeepsOn (P.meaning (under self.old)) (state_of self.old) (hand_move setting) (state_of self.new) }
    {
        if setting >= self.plant.below().settings() {
            return Err(Refusal::NoSuchSetting);
        }
        self.setting = setting;
        self.list = None;
        Ok(())
    }
}

// A tagged plant as a plant: no step by a tagged operation, and all else as below.
ghost use Rattle.std.specs.Prelude.{◌≡◌};
ghost use Rattle.tagged.specs.Meaning.{tagged};
ghost use Rattle.tagged.specs.Tagged.{tags_of, below_of};
ghost use Rattle.tagged.specs.Laws.{tagged_lawful};

use crate::tagged::Tagged;
use plant::plant::Plant;

impl<P: Plant> Plant for Tagged<P> {
    ghost meaning = { λ x. tagged (P.Plant.meaning (below_of x)) (tags_of x) };

    ghost lawful = { λ x. tagged_lawful _ x.tags (P.Plant.lawful x.below) };

    fn settings(&self) -> u32 {
        self.below.settings()
    }

    fn operations(&self) -> u16 {
        self.below.operations()
    }

    fn step(&self, setting: u32, operation: u16) -> Option<u32> {
        // many operations lead nowhere, and then no tag matters
        self.below
            .step(setting, operation)
            .filter(|_| !self.is_tagged(operation))
    }

    fn reverse(&self, operation: u16) -> u16 {
        self.below.reverse(operation)
    }

    fn estimate(&self, from: u32, to: u32) -> u16 {
        self.below.estimate(from, to)
    }
}

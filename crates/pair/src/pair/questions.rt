// A pair as a plant. Where it is too large it has one setting and no operation.
ghost use Rattle.std.specs.Prelude.{◌≡◌};
ghost use Rattle.pair.specs.Meaning.{pair};
ghost use Rattle.pair.specs.Pair.{first_of, second_of};
ghost use Rattle.pair.specs.Laws.{pair_lawful};

use crate::pair::Pair;
use plant::plant::Plant;

// The most that an estimate says.
const CUT: u32 = 65_535;

impl<F: Plant, S: Plant> Plant for Pair<F, S> {
    ghost meaning = { λ x. pair (F.Plant.meaning (first_of x)) (S.Plant.meaning (second_of x)) };

    ghost lawful = { λ x. pair_lawful _ _ (F.Plant.lawful x.first) (S.Plant.lawful x.second) };

    fn settings(&self) -> u32 {
        self.settings
    }

    fn operations(&self) -> u16 {
        self.operations
    }

    fn step(&self, setting: u32, operation: u16) -> Option<u32> {
        if self.large {
            return None;
        }
        let (one, other) = self.split(setting)?;
        self.move_one(one, other, operation)
    }

    fn reverse(&self, operation: u16) -> u16 {
        if self.large {
            operation
        } else if operation < self.first_operations {
            self.first.reverse(operation)
        } else {
            self.first_operations + self.second.reverse(operation - self.first_operations)
        }
    }

    fn estimate(&self, from: u32, to: u32) -> u16 {
        if self.large {
            return 0;
        }
        let (Some((one, other)), Some((one_to, other_to))) = (self.split(from), self.split(to))
        else {
            return 0;
        };
        let sum = self.first.estimate(one, one_to) as u32
            + self.second.estimate(other, other_to) as u32;
        sum.min(CUT) as u16
    }
}

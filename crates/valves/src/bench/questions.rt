// A bench as a plant: its questions, answered by its meaning.
ghost use Rattle.std.specs.Prelude.{◌≡◌};
ghost use Rattle.valves.specs.Positions.{apart as differences};
ghost use Rattle.valves.specs.Of.{bench_of, placed};
ghost use Rattle.valves.specs.Invariant.{lawful_of};

use crate::bench::Bench;
use plant::plant::Plant;

impl Plant for Bench {
    ghost meaning = { bench_of };

    ghost lawful = { λ b. lawful_of b };

    fn settings(&self) -> u32 {
        self.settings
    }

    fn operations(&self) -> u16 {
        2 * self.valves.len() as u16
    }

    fn step(&self, setting: u32, operation: u16) -> Option<u32> {
        let valve = self.valve_at(setting, operation as usize / 2)?;
        if operation % 2 == 0 {
            valve.up()
        } else {
            valve.down()
        }
    }

    fn reverse(&self, operation: u16) -> u16 {
        if operation >= self.operations() {
            operation
        } else if operation % 2 == 0 {
            operation + 1
        } else {
            operation - 1
        }
    }

    fn estimate(&self, from: u32, to: u32) -> u16 {
        if from >= self.settings || to >= self.settings {
            return 0;
        }
        self.apart(from, to)
    }
}

impl Bench {
    // The sum of the differences of position, valve by valve.
    fn apart(&self, from: u32, to: u32) -> u16
        ensures { result ≡ differences (placed self.now from) (placed self.now to) }
    {
        self.valves
            .iter()
            .map(|valve| u16::from(valve.stands(from)).abs_diff(u16::from(valve.stands(to))))
            .sum()
    }
}

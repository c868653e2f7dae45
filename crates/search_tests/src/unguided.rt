// The plant below with an estimate of 0 everywhere, so that nothing but the bound itself cuts a layer.
ghost use Rattle.std.specs.Prelude.{◌≡◌};
ghost use Rattle.search_tests.specs.Unguided.{unguided, below_of};
ghost use Rattle.search_tests.specs.Laws.{unguided_lawful};

use plant::plant::Plant;

#[derive(Drop)]
pub struct Unguided<P: Plant> {
    pub below: P,
}

impl<P: Plant> Plant for Unguided<P> {
    ghost meaning = { λ x. unguided (P.Plant.meaning (below_of x)) };

    ghost lawful = { λ x. unguided_lawful _ (P.Plant.lawful x.below) };

    fn settings(&self) -> u32 {
        self.below.settings()
    }

    fn operations(&self) -> u16 {
        self.below.operations()
    }

    fn step(&self, setting: u32, operation: u16) -> Option<u32> {
        self.below.step(setting, operation)
    }

    fn reverse(&self, operation: u16) -> u16 {
        self.below.reverse(operation)
    }

    fn estimate(&self, _from: u32, _to: u32) -> u16 {
        0
    }
}

// A plant goes from setting to setting by single operations. What it means is one record, and the laws that every
// plant owes are one law of the trait, so that all code above is proved once, over any plant.
ghost use Rattle.std.specs.Prelude.{◌≡◌};
ghost use Rattle.plant.specs.Meaning.{Meaning};
ghost use Rattle.plant.specs.Laws.{Lawful};

pub trait Plant {
    // what the plant means
    ghost meaning: { Self → Meaning };

    // How many settings there are: 1 to 16,777,216. They are numbered from 0.
    fn settings(&self) -> u32
        ensures { result ≡ (meaning self.now).settings };

    // How many operations there are: 0 to 2,048. They are numbered from 0.
    fn operations(&self) -> u16
        ensures { result ≡ (meaning self.now).operations };

    // The setting that the operation leads to, or none. Out of range, none.
    fn step(&self, setting: u32, operation: u16) -> Option<u32>
        ensures { result ≡ (meaning self.now).step setting operation };

    // The operation that leads back. Out of range, the operation itself.
    fn reverse(&self, operation: u16) -> u16
        ensures { result ≡ (meaning self.now).reverse operation };

    // A number of operations that every list from one setting to the other has at least. Out of range, 0.
    fn estimate(&self, from: u32, to: u32) -> u16
        ensures { result ≡ (meaning self.now).estimate from to };

    // what every plant owes
    ghost lawful: { (x : Self) → Lawful (meaning x) };
}

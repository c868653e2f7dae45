// Makes a pair, and takes it and its settings apart.
ghost use Rattle.std.specs.Prelude.{◌≡◌, ◌<◌, false};
ghost use Rattle.pair.specs.Meaning.{too_large, parts, moved};
ghost use Rattle.pair.specs.Pair.{first_of, second_of};

use crate::pair::Pair;
use plant::plant::Plant;

// The most settings and operations that a plant has.
const SETTINGS: u64 = 16_777_216;

const OPERATIONS: u32 = 2048;

impl<F: Plant, S: Plant> Pair<F, S> {
    // The two plants run as one.
    pub fn new(first: F, second: S) -> Pair<F, S>
        ensures one { first_of result ≡ first }
        ensures other { second_of result ≡ second }
    {
        let first_settings = first.settings();
        let first_operations = first.operations();
        let settings = first_settings as u64 * second.settings() as u64;
        let operations = first_operations as u32 + second.operations() as u32;
        let large = (settings > SETTINGS) | (operations > OPERATIONS);
        Pair {
            first,
            second,
            large,
            settings: if large { 1 } else { settings as u32 },
            operations: if large { 0 } else { operations as u16 },
            first_settings,
            first_operations,
        }
    }

    // The first plant.
    pub fn first(&self) -> &F
        ensures { result.now ≡ first_of self.now }
    {
        &self.first
    }

    // The second plant.
    pub fn second(&self) -> &S
        ensures { result.now ≡ second_of self.now }
    {
        &self.second
    }

    // Whether the two have more settings or operations together than a plant may have.
    pub fn too_large(&self) -> bool
        ensures { result ≡ too_large (F.Plant.meaning (first_of self.now)) (S.Plant.meaning (second_of self.now)) }
    {
        self.large
    }

    // The settings of the two plants in a setting of the pair. Out of range, none.
    pub fn split(&self, setting: u32) -> Option<(u32, u32)>
        ensures { result ≡ parts (F.Plant.meaning (first_of self.now)) (S.Plant.meaning (second_of self.now)) setting }
    {
        if setting >= self.settings {
            return None;
        }
        Some((setting % self.first_settings, setting / self.first_settings))
    }

    // Moves one of the plants, which are at these settings, and joins the two again.
    pub(crate) fn move_one(&self, one: u32, other: u32, operation: u16) -> Option<u32>
        requires fits { too_large (F.Plant.meaning (first_of self.now)) (S.Plant.meaning (second_of self.now)) ≡ false }
        requires first { one < (F.Plant.meaning (first_of self.now)).settings }
        requires second { other < (S.Plant.meaning (second_of self.now)).settings }
        ensures { result ≡ moved (F.Plant.meaning (first_of self.now)) (S.Plant.meaning (second_of self.now)) one other operation }
    {
        if operation < self.first_operations {
            let next = self.first.step(one, operation)?;
            Some(next + self.first_settings * other)
        } else {
            let next = self.second.step(other, operation - self.first_operations)?;
            Some(one + self.first_settings * next)
        }
    }
}

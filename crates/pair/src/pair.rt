// Two plants side by side: a setting of the pair is one of each, and an operation moves one of them.
ghost use Rattle.std.specs.Prelude.{◌≡◌};
ghost use Rattle.pair.specs.Meaning.{pair, too_large};

use plant::plant::Plant;

pub mod parts;
pub mod questions;

#[derive(Drop)]
pub struct Pair<F: Plant, S: Plant> {
    first: F,
    second: S,
    // what the two answer of their sizes, since asking again would cost as much as a step
    // Stays: a flag beside sizes, which are told in any case: too large a pair has one setting and no operation.
    large: bool,
    settings: u32,
    operations: u16,
    first_settings: u32,
    first_operations: u16,
    ghost larger: { large ≡ too_large (F.Plant.meaning first) (S.Plant.meaning second) },
    ghost settled: { settings ≡ (pair (F.Plant.meaning first) (S.Plant.meaning second)).settings },
    ghost operated: { operations ≡ (pair (F.Plant.meaning first) (S.Plant.meaning second)).operations },
    ghost first_settled: { first_settings ≡ (F.Plant.meaning first).settings },
    ghost first_operated: { first_operations ≡ (F.Plant.meaning first).operations },
}

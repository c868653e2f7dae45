// What is searched: a leg over a plant, with its start and its bound in range, and the depth at which relays are taken.
ghost use Rattle.std.specs.Prelude.{◌<◌, ◌≤◌};

use legs::leg::Leg;
use plant::plant::Plant;

#[derive(Drop)]
pub(crate) struct Task<'p, P: Plant> {
    pub(crate) plant: &'p P,
    pub(crate) leg: Leg,
    pub(crate) half: u16,
    ghost start: { leg.start < (P.meaning plant.now).settings },
    ghost bound: { leg.bound ≤ 255 },
}

// The lowest operation that steps from one setting to another.
ghost use Rattle.std.specs.Prelude.{◌≡◌};
ghost use Rattle.plan.specs.Lowest.{Lowest, TellsStep};

use plant::plant::Plant;

// The lowest operation that steps from start to target, or none.
pub(crate) fn lowest_step<P: Plant>(plant: &P, start: u32, target: u32) -> Option<u16>
    ensures { Lowest (P.meaning plant.now) start target result }
{
    (0..plant.operations()).find(|operation| steps_to(plant, start, *operation, target))
}

// Whether the operation steps from start to target.
fn steps_to<P: Plant>(plant: &P, start: u32, operation: u16, target: u32) -> bool
    ensures { TellsStep (P.meaning plant.now) start operation target result }
{
    plant.step(start, operation) == Some(target)
}

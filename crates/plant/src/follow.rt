// Where a list of operations leads.
ghost use Rattle.std.specs.Prelude.{◌≡◌, ℕ, ◌↔◌, Some};
ghost use Rattle.plant.specs.Meaning.{Leads};
ghost use Rattle.plant.specs.Follow.{after};

use crate::plant::Plant;

// The setting that the operations lead to from the start, one after another; none where one of them has no step.
pub fn follow<P: Plant>(plant: &P, start: u32, operations: &[u16]) -> Option<u32>
    ensures exact { result ≡ after (P.meaning plant.now) start operations.now }
    ensures leads { (t : ℕ) → (result ≡ Some t) ↔ Leads (P.meaning plant.now) start operations.now t }
{
    walk(plant, start, operations)
}

fn walk<P: Plant>(plant: &P, start: u32, operations: &[u16]) -> Option<u32>
    ensures { result ≡ after (P.meaning plant.now) start operations.now }
{
    let mut setting = start;
    for operation in operations {
        setting = plant.step(setting, *operation)?;
    }
    Some(setting)
}

// Legs and plans: the definitions of layers, length, expanded settings and need, of the legs of a plan and of its
// answer, and their laws over every lawful plant.
#![tactic(auto)]

ghost use Rattle.legs.specs.Laws.{LegsLawful};
ghost use Rattle.legs.specs.PlanLaws.{PlansLawful};

pub mod leg;
pub mod relayed;

// Carries the laws of legs: layers are what the rules say, a setting is in at most one, three layers are enough to
// find every duplicate, and a leg's length is the least length of a list within the bound.
pub fn legs_lawful() -> u8
    ensures { LegsLawful }
{
    0
}

// Carries the laws of plans: the list is the earliest of the least length, both halves of it are so for their own ends,
// the relay of a leg is the setting half way, and each refusal is given exactly where it is due.
pub fn plans_lawful() -> u8
    ensures { PlansLawful }
{
    0
}

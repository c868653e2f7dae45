// The promise of a sequencer: its calls, what each is refused for and makes of the state, what is read from the accepted
// calls alone, and that the two agree over every lawful plant.
#![tactic(auto)]

ghost use Rattle.promise.specs.Promise.{PromiseKept};

// Carries the promise over all calls from the making on: setting, tags and list are those read from the accepted calls,
// the list in hand is the earliest of the shortest by untagged operations, and a plan asked now is answered rightly.
pub fn promise_kept() -> u8
    ensures { PromiseKept }
{
    0
}

// What is wrong first with a steps body.
ghost use Rattle.std.specs.Prelude.{◌≡◌};
ghost use Rattle.bodies.specs.StepsRule.{steps_fault};

use numbers::quad;

#[derive(Clone, Copy, PartialEq, Eq, Debug)]
pub enum StepsFault {
    // not ten bytes and up to 255 operations of two bytes, or not ten bytes under an answer other than 0
    Length,
    // not 0 and not 4 to 7
    Answer,
    // the byte behind the answer is not 0
    Zero,
    // not 0 under an answer other than 0
    Count,
}

// The first fault of a steps body: its length, the answer, the zero behind it, the count.
pub fn steps_fault(body: &[u8]) -> Option<StepsFault>
    ensures { result ≡ steps_fault body.now }
{
    let [answer, zero, a, b, c, d, e, f, g, h, operations @ ..] = body else {
        return Some(StepsFault::Length);
    };
    let bytes = operations.len();
    if bytes % 2 != 0 || bytes > 510 {
        return Some(StepsFault::Length);
    }
    let listed = *answer == 0;
    if !matches!(*answer, 0 | 4..=7) {
        return Some(StepsFault::Answer);
    }
    if !listed && bytes > 0 {
        return Some(StepsFault::Length);
    }
    if *zero != 0 {
        return Some(StepsFault::Zero);
    }
    if !listed && quad([*a, *b, *c, *d, *e, *f, *g, *h]) != 0 {
        return Some(StepsFault::Count);
    }
    None
}

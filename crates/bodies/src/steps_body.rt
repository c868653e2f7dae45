// A steps body taken apart: the answer, the count and the operations, which stay a part of the file.
ghost use Rattle.std.specs.Prelude.{◌≡◌, ◌<◌, length, Some, None};
ghost use Rattle.std.specs.List.{slice_get};
ghost use Rattle.bodies.specs.StepsRead.{pairs, steps_of, Says};

use numbers::{quad, word};

#[derive(Clone, Copy)]
pub struct StepsBody<'a> {
    pub answer: u8,
    pub count: u64,
    // two bytes each
    pub operations: &'a [u8],
}

// Takes a steps body apart; none where it is shorter than answer, zero and count.
pub fn steps_body<'a>(body: &'a [u8]) -> Option<StepsBody<'a>>
    ensures { elim result [ Some s ↦ Says (steps_of body.now) s.answer s.count s.operations.now | None ↦ length body.now < 10 ] }
{
    let [answer, _, a, b, c, d, e, f, g, h, operations @ ..] = body else {
        return None;
    };
    Some(StepsBody {
        answer: *answer,
        count: quad([*a, *b, *c, *d, *e, *f, *g, *h]),
        operations,
    })
}

// The operation at a place of the list, or none past its end.
pub fn operation(operations: &[u8], place: usize) -> Option<u16>
    ensures { result ≡ slice_get (pairs operations.now) place }
{
    let (pairs, _) = operations.as_chunks::<2>();
    let [low, high] = pairs.get(place)?;
    Some(word(*low, *high))
}

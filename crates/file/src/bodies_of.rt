// The bodies of the entries, taken one after another.
ghost use Rattle.std.specs.Prelude.{◌≡◌};
ghost use Rattle.std.specs.List.{slice_get};
ghost use Rattle.std.specs.Result.{result_err};
ghost use Rattle.file.specs.Parts.{plant_before, kind_fault, parts_fault};
ghost use Rattle.file.specs.Taken.{BodyTaken, BodyIs, parts_left};

use crate::body::{Bodies, Body};
use crate::kind::{Kind, is_plant};
use crate::row::Rows;
use bodies::job::job_fault;
use bodies::steps::steps_fault;
use faults::fault::BodyFault;
use plant_bodies::bench_body::valves_fault;
use plant_bodies::track_body::track_fault;

impl<'a> Bodies<'a> {
    // The next body and those behind it; none where none is left.
    pub(crate) fn split_first(self) -> Option<(Body<'a>, Bodies<'a>)>
        ensures { BodyTaken self.entry result }
    {
        let (row, rows) = self.rows.split_first()?;
        let end = self.place + row.length;
        let body = Body {
            number: row.number,
            kind: row.kind,
            place: self.place,
            bytes: &self.file[self.place as usize..end as usize],
        };
        let rest = Bodies {
            file: self.file,
            rows,
            place: end,
        };
        Some((body, rest))
    }

    // The body that is so many behind the first; none past the last.
    pub(crate) fn nth(self, number: u8) -> Option<Body<'a>>
        ensures { BodyIs (slice_get (parts_left self.entry) number) result }
    {
        if number >= self.rows.left {
            return None;
        }
        let mut rows = self.rows;
        let mut place = self.place;
        // Stays: the rows alone, taken by `split_first` as in `rows_length`, since no more is needed of those passed over.
        for _before in 0..number {
            let Some((row, after)) = rows.split_first() else {
                return unreachable();
            };
            place += row.length;
            rows = after;
        }
        let behind = Bodies {
            file: self.file,
            rows,
            place,
        };
        let Some((body, _)) = behind.split_first() else {
            return unreachable();
        };
        Some(body)
    }
}

// Whether the entry that is named stands before this one and is a bench or a track.
fn plant_before(rows: Rows, number: u8, named: u8) -> bool
    ensures { result ≡ plant_before rows.entry.bytes.now number named }
{
    if named >= number {
        return false;
    }
    is_plant(rows.kind_at(named))
}

// What is wrong first with the body of one entry, if anything.
// Stays: an option, which the checks of the bodies answer and which is handed on.
fn body_fault(rows: Rows, body: Body) -> Option<BodyFault>
    ensures { result ≡ kind_fault rows.entry.bytes.now body.entry.number body.entry.kind body.entry.place body.entry.bytes.now }
{
    let place = body.place;
    match body.kind? {
        Kind::Valves => valves_fault(body.bytes).map(|fault| BodyFault::Valves { place, fault }),
        Kind::Track => track_fault(body.bytes).map(|fault| BodyFault::Track { place, fault }),
        Kind::Job => {
            let named = body.bytes.first().copied().unwrap_or(0);
            job_fault(body.bytes, plant_before(rows, body.number, named)).map(
                |fault| BodyFault::Job { place, fault },
            )
        }
        Kind::Steps => steps_fault(body.bytes).map(|fault| BodyFault::Steps { place, fault }),
    }
}

// Checks the bodies, one after another.
pub(crate) fn check_bodies(bodies: Bodies) -> Result<(), BodyFault>
    ensures { result_err result ≡ parts_fault bodies.entry.rows.bytes.now bodies.entry.rows.number (parts_left bodies.entry) }
{
    let mut rest = bodies;
    // Stays: taken by `split_first`; an `Iterator` would need a second definition of what is left, and lemmas between the two.
    while let Some((body, after)) = rest.split_first() {
        if let Some(fault) = body_fault(bodies.rows, body) {
            return Err(fault);
        }
        rest = after;
    }
    Ok(())
}

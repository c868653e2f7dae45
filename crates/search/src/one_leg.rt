// One leg searched in records that the caller lends: its length, what it expands, and the record of its target.
ghost use Rattle.std.specs.Prelude.{[]};
ghost use Rattle.std.specs.Result.{result_ok};
ghost use Rattle.search.specs.Records.{kind};
ghost use Rattle.legs.specs.Asked.{asked};
ghost use Rattle.search.specs.Walked.{RunThrough};

use crate::lookup::Lookup;
use crate::overfull::Overfull;
use crate::record::Record;
use crate::search::Search;
use crate::sizes::Sizes;
use crate::task::Task;
use crate::walk::Ended;
use plant::plant::Plant;

// A leg that has ended, and the record of its target if the last layer holds it.
pub(crate) struct Walk<R> {
    pub(crate) ended: Ended,
    pub(crate) hit: Option<R>,
}

// Walks the leg.
pub(crate) fn walk_leg<P: Plant, R: Record, L: Lookup<R>>(
    task: Task<P>,
    records: &mut [R],
    lookup: &mut L,
) -> Result<Walk<R>, Overfull>
    requires { L.Lookup.follows lookup.old [] }
    ensures { RunThrough (P.meaning task.entry.plant.now) (kind R.Record.tells R.Record.opens R.Record.carries task.entry.half) (asked task.entry.leg) records.old records.new (result_ok result) }
{
    let target = task.leg.target;
    let mut search = Search {
        task,
        room: records,
        sizes: Sizes {
            before: 0,
            present: 0,
            next: 0,
        },
        lookup,
    };
    search.begin()?;
    let ended = search.run()?;
    Ok(Walk {
        ended,
        hit: search.record_of(target),
    })
}

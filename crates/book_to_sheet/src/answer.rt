// The answer to one job on its plant.
ghost use Rattle.std.specs.Prelude.{◌≡◌};
ghost use Rattle.book_sheet.specs.Jobs.{steps_on};
ghost use Rattle.book_to_sheet.specs.Told.{Told};

use crate::list::List;
use crate::workspace::Workspace;
use bodies::job::Job;
use legs::leg::Leg;
use plan::planning::plan;
use plant::plant::Plant;
use plant::refusal::Refusal;

// Plans the job on its plant.
pub(crate) fn answer_on<P: Plant>(
    plant: &P,
    job: Job,
    workspace: &mut Workspace,
) -> Result<List, Refusal>
    ensures { Told (steps_on job (P.meaning plant.now)) result }
{
    let mut list = [0u16; 255];
    let leg = Leg {
        start: job.start,
        target: job.target,
        bound: job.bound,
    };
    let planned = plan(
        plant,
        leg,
        &mut workspace.records,
        &mut workspace.index,
        &mut list,
    )?;
    Ok(List {
        count: planned.count,
        length: planned.length,
        place: list,
    })
}

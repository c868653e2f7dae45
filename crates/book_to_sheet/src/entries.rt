// The entries of a book: which are jobs, and the answer to each.
ghost use Rattle.std.specs.Prelude.{◌≡◌, Some};
ghost use Rattle.std.specs.Option.{option_map};
ghost use Rattle.file.specs.Files.{as_part};
ghost use Rattle.book_sheet.specs.Jobs.{plant_in, steps_on, job_steps};
ghost use Rattle.book_to_sheet.specs.Told.{ToldIf};
ghost use Rattle.book_to_sheet.specs.Entries.{BodyFaultless, parts_of, numbered_steps};

use crate::answer::answer_on;
use crate::list::List;
use crate::workspace::Workspace;
use bodies::job::{Job, job_of};
use book::read::Book;
use file::entry::Entry;
use plant::refusal::Refusal;
use plants_read::bench_read::bench_of;
use plants_read::track_read::track_of;

// Plans the job on the bench or the track of this entry; none where it is neither.
fn answer_by(entry: Entry, job: Job, workspace: &mut Workspace) -> Option<Result<List, Refusal>>
    requires { BodyFaultless (as_part entry) }
    ensures { ToldIf (option_map (steps_on job) (plant_in (Some (as_part entry.entry)))) result }
{
    match entry {
        Entry::Valves { body, .. } => Some(answer_on(&bench_of(body)?, job, workspace)),
        Entry::Track { body, .. } => Some(answer_on(&track_of(body)?, job, workspace)),
        _ => None,
    }
}

// Plans the job on the plant of the entry that it names.
fn answer_job(book: &Book, job: Job, workspace: &mut Workspace) -> Option<Result<List, Refusal>>
    ensures { ToldIf (job_steps (parts_of book.now) (Some job)) result }
{
    let entry = book.get(job.entry)?;
    answer_by(entry, job, workspace)
}

// The answer to the entry with this number; none where it is no job.
pub(crate) fn answer_entry(
    book: &Book,
    number: u8,
    workspace: &mut Workspace,
) -> Option<Result<List, Refusal>>
    ensures { ToldIf (numbered_steps (parts_of book.now) number) result }
{
    match book.get(number)? {
        Entry::Job { body, .. } => answer_job(book, job_of(body)?, workspace),
        _ => None,
    }
}

// Zero in every record, after a search.
ghost use Rattle.std.specs.Prelude.{◌≡◌, ◌≤◌, ◌++◌, length, drop, replicate};
ghost use Rattle.search.specs.Answered.{left_by};

use crate::record::Record;
use plant::refusal::Refusal;

// Leaves zero in every record.
pub fn clear_all<R: Record>(records: &mut [R])
    ensures { records.new ≡ replicate (length records.old) R.Record.blank }
{
    let blank = R::zero();
    records.fill_with(|| blank);
}

// Zero in the first records, so many.
pub(crate) fn blank_front<R: Record>(records: &mut [R], count: usize)
    requires { count ≤ length records.old }
    ensures { records.new ≡ replicate count R.Record.blank ++ drop count records.old }
{
    clear_all(&mut records[0..count]);
}

// Leaves zero in every record after a refusal that comes from a search, and the records as they were after any other.
pub fn clear_after<R: Record>(refusal: Refusal, records: &mut [R])
    ensures { records.new ≡ left_by R.Record.blank refusal records.old }
{
    if matches!(refusal, Refusal::Overfull | Refusal::OutOfReach) {
        clear_all(records);
    }
}

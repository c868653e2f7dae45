// The law between writing a sheet and reading it, over whole runs of calls.
#![tactic(auto)]

ghost use Rattle.sheet_laws.specs.Runs.{PutAndRead};

// What is put on a sheet, body by body, from the opening to the closing, is what is read from it. The contract is the
// law, and the answer is of no use.
pub fn sheets_read_back() -> u8
    ensures { PutAndRead }
{
    0
}

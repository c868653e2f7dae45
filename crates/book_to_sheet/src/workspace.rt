// The memory in which jobs are planned.
use legs::relayed::Relayed;

// Every job is planned with so many records, and settings are looked up by so many numbers: a link for each record, and two
// heads.
const RECORDS: usize = 8192;

const INDEX: usize = 24576;

#[derive(Drop)]
pub(crate) struct Workspace {
    pub(crate) records: [Relayed; RECORDS],
    pub(crate) index: [u32; INDEX],
}

impl Workspace {
    // About 180 KiB, which the caller holds.
    pub(crate) fn new() -> Workspace {
        Workspace {
            records: [Relayed::default(); RECORDS],
            index: [0; INDEX],
        }
    }
}

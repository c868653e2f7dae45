// What is wrong first with a job body, and a job taken apart.
ghost use Rattle.std.specs.Prelude.{◌≡◌, length};
ghost use Rattle.bodies.specs.JobRule.{job_fault, job_of};

use numbers::{double, word};

#[derive(Clone, Copy, PartialEq, Eq, Debug)]
pub enum JobFault {
    // not twelve bytes
    Length,
    // it names no earlier entry that is a bench or a track
    Entry,
    // the byte behind that number is not 0
    Zero,
}

// A job: the entry of its plant, the bound, the start and the target.
#[derive(Clone, Copy, PartialEq, Eq, Debug)]
pub struct Job {
    pub entry: u8,
    pub bound: u16,
    pub start: u32,
    pub target: u32,
}

// The job in a body of twelve bytes; none in any other.
pub fn job_of(body: &[u8]) -> Option<Job>
    ensures { result ≡ job_of body.now }
{
    let [entry, _, b0, b1, s0, s1, s2, s3, t0, t1, t2, t3] = body else {
        return None;
    };
    Some(Job {
        entry: *entry,
        bound: word(*b0, *b1),
        start: double([*s0, *s1, *s2, *s3]),
        target: double([*t0, *t1, *t2, *t3]),
    })
}

// The first fault of a job body, where `plant` tells whether the entry that it names is an earlier bench or track:
// its length, the entry, the zero behind it.
pub fn job_fault(body: &[u8], plant: bool) -> Option<JobFault>
    ensures { result ≡ job_fault plant body.now }
{
    let [_, zero, _, _, _, _, _, _, _, _, _, _] = body else {
        return Some(JobFault::Length);
    };
    if !plant {
        return Some(JobFault::Entry);
    }
    if *zero != 0 {
        return Some(JobFault::Zero);
    }
    None
}

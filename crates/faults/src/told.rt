// The layer, the number and the byte of a fault.
ghost use Rattle.std.specs.Prelude.{◌≡◌};
ghost use Rattle.bodies.specs.JobRule.{job_byte};
ghost use Rattle.bodies.specs.StepsRule.{steps_byte};
ghost use Rattle.plant_bodies.specs.BenchRule.{bench_byte, valves_byte};
ghost use Rattle.plant_bodies.specs.TrackRule.{link_byte, track_byte};
ghost use Rattle.faults.specs.Told.{layer_code, layer_of, number_of, contents_number, contents_byte, body_byte, byte_of};

use crate::fault::{BodyFault, ContentsFault, FileFault, Layer};
use bodies::job::JobFault;
use bodies::steps::StepsFault;
use plant_bodies::bench_body::ValvesFault;
use plant_bodies::track_body::TrackBodyFault;
use track::link::TrackFault;
use valves::fault::BenchFault;

impl Layer {
    // The layers are numbered 1 to 4.
    pub fn code(self) -> u8
        ensures { result ≡ layer_code self }
    {
        self as u8
    }
}

impl ContentsFault {
    // A steps body in a book has a number of its own.
    pub fn number(self) -> u8
        ensures { result ≡ contents_number self }
    {
        match self {
            ContentsFault::NoBook(_) => 14,
            _ => 11,
        }
    }

    // The first byte of the wrong field.
    pub fn byte(self) -> u32
        ensures { result ≡ contents_byte self }
    {
        match self {
            ContentsFault::Entries => 0,
            ContentsFault::HeadZero => 1,
            ContentsFault::Kind(row) => 2 + 4 * row as u32,
            ContentsFault::RowZero(row) => 3 + 4 * row as u32,
            ContentsFault::NoBook(row) => 2 + 4 * row as u32,
        }
    }
}

// Where in the body of a bench of so many valves the wrong field begins: of the two valves of an interlock that are one,
// the later.
fn bench_byte(valves: u8, fault: BenchFault) -> u32
    ensures { result ≡ bench_byte valves fault }
{
    let interlocks = 2 + valves as u32;
    match fault {
        BenchFault::Valves => 0,
        BenchFault::Interlocks => 1,
        BenchFault::Positions(valve) => 2 + valve as u32,
        BenchFault::Valve(row) => interlocks + 4 * row as u32,
        BenchFault::Position(row) => interlocks + 4 * row as u32 + 1,
        BenchFault::Other(row) => interlocks + 4 * row as u32 + 2,
        BenchFault::Same(row) => interlocks + 4 * row as u32 + 2,
        BenchFault::Stands(row) => interlocks + 4 * row as u32 + 3,
    }
}

// Where in the body of a bench the wrong field begins.
fn valves_byte(fault: ValvesFault) -> u32
    ensures { result ≡ valves_byte fault }
{
    match fault {
        ValvesFault::Length => 0,
        ValvesFault::Bench { valves, fault } => bench_byte(valves, fault),
    }
}

// Where in the body of a track the wrong field begins: of the two stations of a link that are one, the later.
fn link_byte(fault: TrackFault) -> u32
    ensures { result ≡ link_byte fault }
{
    match fault {
        TrackFault::Stations => 0,
        TrackFault::Links => 2,
        TrackFault::First(link) => 4 + 4 * link as u32,
        TrackFault::Second(link) => 6 + 4 * link as u32,
        TrackFault::Same(link) => 6 + 4 * link as u32,
    }
}

// Where in the body of a track the wrong field begins; of a wrong length, the body.
fn track_byte(fault: TrackBodyFault) -> u32
    ensures { result ≡ track_byte fault }
{
    match fault {
        TrackBodyFault::Length => 0,
        TrackBodyFault::Track(fault) => link_byte(fault),
    }
}

// Where in a job body the wrong field begins.
fn job_byte(fault: JobFault) -> u32
    ensures { result ≡ job_byte fault }
{
    match fault {
        JobFault::Length => 0,
        JobFault::Entry => 0,
        JobFault::Zero => 1,
    }
}

// Where in a steps body the wrong field begins.
fn steps_byte(fault: StepsFault) -> u32
    ensures { result ≡ steps_byte fault }
{
    match fault {
        StepsFault::Length => 0,
        StepsFault::Answer => 0,
        StepsFault::Zero => 1,
        StepsFault::Count => 2,
    }
}

impl BodyFault {
    // The first byte of the wrong field; of a wrong length, that of the body.
    pub fn byte(self) -> u32
        ensures { result ≡ body_byte self }
    {
        match self {
            BodyFault::Valves { place, fault } => place as u32 + valves_byte(fault),
            BodyFault::Track { place, fault } => place as u32 + track_byte(fault),
            BodyFault::Job { place, fault } => place as u32 + job_byte(fault),
            BodyFault::Steps { place, fault } => place as u32 + steps_byte(fault),
        }
    }
}

impl FileFault {
    pub fn layer(self) -> Layer
        ensures { result ≡ layer_of self }
    {
        match self {
            FileFault::TooShort { .. } => Layer::File,
            FileFault::TooLong { .. } => Layer::File,
            FileFault::Contents(_) => Layer::Contents,
            FileFault::Body(_) => Layer::Body,
            FileFault::ShortSheet { .. } => Layer::Sheet,
        }
    }

    pub fn number(self) -> u8
        ensures { result ≡ number_of self }
    {
        match self {
            FileFault::TooShort { .. } => 10,
            FileFault::TooLong { .. } => 10,
            FileFault::Contents(fault) => fault.number(),
            FileFault::Body(_) => 12,
            FileFault::ShortSheet { .. } => 13,
        }
    }

    pub fn byte(self) -> u32
        ensures { result ≡ byte_of self }
    {
        match self {
            FileFault::TooShort { end } => end as u32,
            FileFault::TooLong { end } => end as u32,
            FileFault::Contents(fault) => fault.byte(),
            FileFault::Body(fault) => fault.byte(),
            FileFault::ShortSheet { end } => end as u32,
        }
    }
}

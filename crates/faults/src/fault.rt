// The faults of a file, each with what tells its byte.
use bodies::job::JobFault;
use bodies::steps::StepsFault;
use plant_bodies::bench_body::ValvesFault;
use plant_bodies::track_body::TrackBodyFault;

// A fault of the head or of the contents.
#[derive(Clone, Copy, PartialEq, Eq, Debug)]
pub enum ContentsFault {
    // more than 64 entries
    Entries,
    // byte 1 is not 0
    HeadZero,
    // in this row, from 0: a kind that is not read here
    Kind(u8),
    // in this row, from 0: the byte behind the kind is not 0
    RowZero(u8),
    // in this row, from 0: a steps body where none belongs
    NoBook(u8),
}

// A fault of the body that begins at this byte of the file.
#[derive(Clone, Copy, PartialEq, Eq, Debug)]
pub enum BodyFault {
    Valves { place: u16, fault: ValvesFault },
    Track { place: u16, fault: TrackBodyFault },
    Job { place: u16, fault: JobFault },
    Steps { place: u16, fault: StepsFault },
}

// The first fault of a file.
#[derive(Clone, Copy, PartialEq, Eq, Debug)]
pub enum FileFault {
    // the file ends here, and more is owed
    TooShort { end: u16 },
    // nothing is owed from this byte on
    TooLong { end: u16 },
    Contents(ContentsFault),
    Body(BodyFault),
    // the buffer of a sheet ends here, and more is to be written
    ShortSheet { end: u16 },
}

// Where a fault lies.
#[derive(Clone, Copy, PartialEq, Eq, Debug)]
pub enum Layer {
    File = 1,
    Contents = 2,
    Body = 3,
    Sheet = 4,
}

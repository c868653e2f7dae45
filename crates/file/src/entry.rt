// An entry of a file: its body as a part of the file, with the byte at which it begins.
#[derive(Clone, Copy)]
pub enum Entry<'a> {
    Valves { place: u16, body: &'a [u8] },
    Track { place: u16, body: &'a [u8] },
    Job { place: u16, body: &'a [u8] },
    Steps { place: u16, body: &'a [u8] },
}

// Writing the line of a fault, piece by piece.
ghost use Rattle.std.specs.Prelude.{◌≡◌, ◌+◌, ◌≤◌, [], ◌++◌, length};
ghost use Rattle.fault_line.specs.Lines.{written, numeral, line_of};

use crate::line::Line;
use faults::fault::FileFault;
use itoa::Buffer;

// Stays: pieces and no `write!`, after which it is not known that all the text had room.
impl Line {
    fn empty() -> Line
        ensures { written result ≡ [] }
    {
        Line {
            bytes: [0; 32],
            end: 0,
        }
    }

    fn push(&mut self, piece: &[u8])
        requires { length (written self.old) + length piece.now ≤ 32 }
        ensures { written self.new ≡ written self.old ++ piece.now }
    {
        let end = self.end + piece.len();
        self.bytes[self.end..end].copy_from_slice(piece);
        self.end = end;
    }

    fn push_decimal(&mut self, number: u32)
        requires { length (written self.old) + length (numeral number) ≤ 32 }
        ensures { written self.new ≡ written self.old ++ numeral number }
    {
        self.push(Buffer::new().format(number).as_bytes());
    }

    // The line of a fault.
    pub fn of(fault: FileFault) -> Line
        ensures { written result ≡ line_of fault }
    {
        let mut line = Line::empty();
        line.push(b"fault ");
        line.push(fault.layer().word().as_bytes());
        line.push(b" ");
        line.push_decimal(fault.number() as u32);
        line.push(b" ");
        line.push_decimal(fault.byte());
        line.push(b"\n");
        line
    }

    // The bytes of the line.
    pub fn as_bytes(&self) -> &[u8]
        ensures { result.now ≡ written self.now }
    {
        &self.bytes[0..self.end]
    }
}

// Unsigned numbers in bytes, low byte first.
#![tactic(auto)]

ghost use Rattle.std.specs.Prelude.{◌≡◌, ◌+◌, ◌*◌, [], ◌∷◌, length};
ghost use Rattle.numbers.specs.Low.{low, value};

// Fills the part with the low bytes of the number.
pub fn write_number(part: &mut [u8], number: u64)
    ensures { part.new ≡ low (length part.old) number }
{
    // Stays: byte by byte, since a part may be longer than the eight bytes of `to_le_bytes`.
    let mut left = number;
    for byte in part.iter_mut() {
        *byte = (left % 256) as u8;
        left /= 256;
    }
}

// The number in two bytes.
// Stays: three functions and no generic one, since the type of the result could not be told from the number of bytes.
pub fn word(first: u8, second: u8) -> u16
    ensures { result ≡ value (first ∷ second ∷ []) }
{
    u16::from_le_bytes([first, second])
}

// The number in four bytes.
pub fn double(bytes: [u8; 4]) -> u32
    ensures { result ≡ value bytes }
{
    u32::from_le_bytes(bytes)
}

// The number in eight bytes.
pub fn quad(bytes: [u8; 8]) -> u64
    ensures { result ≡ value bytes }
{
    u64::from_le_bytes(bytes)
}

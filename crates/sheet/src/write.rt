// The bytes of one body and of its row, each written into the part of the buffer that is its place.
ghost use Rattle.std.specs.Prelude.{◌≡◌, ◌+◌, ◌-◌, ◌*◌, ◌≤◌, ◌∷◌, length, replicate};
ghost use Rattle.numbers.specs.Low.{low};
ghost use Rattle.sheet.specs.Steps.{steps};
ghost use Rattle.sheet.specs.Bytes.{words, body_bytes};

use numbers::write_number;

// The kind of a steps body.
const STEPS: u8 = 4;

// Writes the operations, 16 bits each.
pub(crate) fn write_operations(part: &mut [u8], operations: &[u16])
    requires { length part.old ≡ 2 * length operations.now }
    ensures { part.new ≡ words operations.now }
{
    // Stays: after a loop over `chunks_exact_mut` the length of the part is known, and nothing of its elements.
    for (i, operation) in operations.iter().enumerate() {
        write_number(&mut part[2 * i..2 * i + 2], *operation as u64);
    }
}

// Writes a body: answer, 0, count, operations.
pub(crate) fn write_body(part: &mut [u8], answer: u8, count: u64, operations: &[u16])
    requires { length part.old ≡ 10 + 2 * length operations.now }
    ensures { part.new ≡ body_bytes (steps answer count operations.now) }
{
    let n = part.len();
    part[0] = answer;
    part[1] = 0;
    write_number(&mut part[2..10], count);
    write_operations(&mut part[10..n], operations);
}

// Writes the row of a body of so many bytes: kind, 0, length.
pub(crate) fn write_row(part: &mut [u8], body: usize)
    requires { length part.old ≡ 4 }
    ensures { part.new ≡ 4 ∷ (0 ∷ low 2 body) }
{
    part[0] = STEPS;
    part[1] = 0;
    write_number(&mut part[2..4], body as u64);
}

// Writes the head of a sheet of so many bodies, and their rows with nothing in them.
pub(crate) fn write_head(part: &mut [u8], bodies: u8)
    requires { 2 ≤ length part.old }
    ensures { part.new ≡ bodies ∷ (0 ∷ replicate (length part.old - 2) 0) }
{
    part.fill(0);
    part[0] = bodies;
}

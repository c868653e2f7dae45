// Reading a sheet: a file of steps bodies alone, which is what its bodies write.
#![tactic(auto)]

ghost use Rattle.std.specs.Prelude.{◌≡◌};
ghost use Rattle.file.specs.declared.kind.Reader.TheVariants.{StepsAlone};
ghost use Rattle.file.specs.Read.{read_fault};
ghost use Rattle.file.specs.Files.{file_bytes, file_fault, file_reader};
ghost use Rattle.sheet_reader.specs.Laws.{ReadsBack, WritesBack};

use file::file::File;
use file::kind::Reader;

// Reads a sheet, or keeps its first fault. A sheet that was written reads back as its bodies, in their order, and one
// that is read without a fault is, byte for byte, the one that its bodies write.
pub fn read_sheet<'a>(bytes: &'a [u8]) -> File<'a>
    ensures fault { file_fault result ≡ read_fault StepsAlone bytes.now }
    ensures bytes { file_bytes result ≡ bytes.now }
    ensures reader { file_reader result ≡ StepsAlone }
    ensures back { ReadsBack bytes.now (file_fault result) }
    ensures forth { WritesBack bytes.now (file_fault result) }
{
    File::read(Reader::StepsAlone, bytes)
}

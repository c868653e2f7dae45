// How a fault is shown: the word fault, then its layer, number and byte.
ghost use Rattle.std.specs.Prelude.{◌≡◌, Some};
ghost use Rattle.faults.specs.Shown.{layer_word, fault_text};

use crate::fault::{FileFault, Layer};
use std::fmt;

impl Layer {
    // The word of the layer.
    // Stays: a word beside `Display`, since `Line` takes bytes.
    pub fn word(self) -> &'static str
        ensures { result.now ≡ layer_word self }
    {
        match self {
            Layer::File => "file",
            Layer::Contents => "contents",
            Layer::Body => "body",
            Layer::Sheet => "sheet",
        }
    }
}

impl fmt::Display for Layer {
    ghost output = { λ layer. Some (layer_word layer) };

    fn fmt<W: fmt::Write>(&self, f: &mut fmt::Formatter<W>) -> fmt::Result {
        f.write_str(self.word())
    }
}

impl fmt::Display for FileFault {
    ghost output = { λ fault. Some (fault_text fault) };

    fn fmt<W: fmt::Write>(&self, f: &mut fmt::Formatter<W>) -> fmt::Result {
        write!(
            f,
            "fault {} {} {}",
            self.layer(),
            self.number(),
            self.byte()
        )
    }
}

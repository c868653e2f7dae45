// A fault as one number.
#![tactic(auto)]

ghost use Rattle.std.specs.Prelude.{◌≡◌};
ghost use Rattle.fault_code.specs.Codes.{code_of, ByteFits};

use faults::fault::FileFault;

// 65,536 times the sum of 256 times the layer and the number, plus the byte. The byte of a fault that a reader gives has
// 16 bits, so that layer, number and byte can be read from the code.
pub fn coded(fault: FileFault) -> u64
    ensures code { result ≡ code_of fault }
    ensures fits { ByteFits fault }
{
    65536 * (256 * fault.layer().code() as u64 + fault.number() as u64) + fault.byte() as u64
}

// Reading back for C.
ghost use Rattle.packing.specs.Raw.{parts};
ghost use Rattle.pack_doors.specs.PackDoors.{UnpackDoor};

use replies::{MarginsFormula, formula_told};
use unpacking::unpack;

pub fn margins_unpack(
    bytes: &[u8],
    codes: &mut [i64],
    firsts: &mut [i64],
    seconds: &mut [i64],
    outputs: &mut [i64],
) -> MarginsFormula
    ensures { UnpackDoor bytes.now
        (parts codes.old firsts.old seconds.old outputs.old)
        (parts codes.new firsts.new seconds.new outputs.new) result }
{
    formula_told(unpack(bytes, codes, firsts, seconds, outputs))
}

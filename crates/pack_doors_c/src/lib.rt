// The packer and reading back, under their C names: what `pack_doors` promises.
#![tactic(auto)]

ghost use Rattle.packing.specs.Raw.{parts, handed};
ghost use Rattle.pack_doors.specs.PackDoors.{PackDoor, UnpackDoor};

use replies::{MarginsFormula, MarginsPacked};

#[unsafe(no_mangle)]
pub extern "C" fn margins_pack(
    scale: i64,
    inputs: i64,
    codes: &[i64],
    firsts: &[i64],
    seconds: &[i64],
    outputs: &[i64],
    bytes: &mut [u8],
) -> MarginsPacked
    ensures { PackDoor (handed scale inputs
        (parts codes.now firsts.now seconds.now outputs.now))
        bytes.old bytes.new result }
{
    pack_doors::pack_door::margins_pack(scale, inputs, codes, firsts, seconds, outputs, bytes)
}

#[unsafe(no_mangle)]
pub extern "C" fn margins_unpack(
    bytes: &[u8],
    codes: &mut [i64],
    firsts: &mut [i64],
    seconds: &mut [i64],
    outputs: &mut [i64],
) -> MarginsFormula
    ensures { UnpackDoor bytes.now
        (parts codes.old firsts.old seconds.old outputs.old)
        (parts codes.new firsts.new seconds.new outputs.new) result }
{
    pack_doors::unpack_door::margins_unpack(bytes, codes, firsts, seconds, outputs)
}

// The packer for C.
ghost use Rattle.packing.specs.Raw.{parts, handed};
ghost use Rattle.pack_doors.specs.PackDoors.{PackDoor};

use packer::pack;
use replies::{MarginsPacked, packed_told};

pub fn margins_pack(
    scale: i64,
    inputs: i64,
    codes: &[i64],
    firsts: &[i64],
    seconds: &[i64],
    outputs: &[i64],
    bytes: &mut [u8],
) -> MarginsPacked
    ensures { PackDoor (handed scale inputs
        (parts codes.now firsts.now seconds.now outputs.now))
        bytes.old bytes.new result }
{
    packed_told(pack(scale, inputs, codes, firsts, seconds, outputs, bytes))
}

// Packing a text, as a program in C or Rust links it.
#![tactic(auto)]

ghost use Rattle.text_door.specs.TextDoors.{TextDoor};

use replies::{MarginsPacked, packed_told};
use text_packer::pack_text;

pub fn margins_pack_text(scale: i64, inputs: i64, text: &[u8], bytes: &mut [u8]) -> MarginsPacked
    ensures { TextDoor scale inputs text.now bytes.old bytes.new result }
{
    packed_told(pack_text(scale, inputs, text, bytes))
}

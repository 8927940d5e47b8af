// Packing a text, under its C name: what `text_door` promises.
#![tactic(auto)]

ghost use Rattle.text_door.specs.TextDoors.{TextDoor};

use replies::MarginsPacked;

#[unsafe(no_mangle)]
pub extern "C" fn margins_pack_text(
    scale: i64,
    inputs: i64,
    text: &[u8],
    bytes: &mut [u8],
) -> MarginsPacked
    ensures { TextDoor scale inputs text.now bytes.old bytes.new result }
{
    text_door::margins_pack_text(scale, inputs, text, bytes)
}

// The packer: the tests, then room, then the bytes. Nothing is written before the tests have passed.
#![tactic(auto)]

ghost use Rattle.packing.specs.Raw.{parts, handed};
ghost use Rattle.packing.specs.PackAnswers.{Packs};

use fitting::formula_size;
use formula_writer::write;
use packing::Handed;
use refusals::{Refusal, Refused};

// The packed bytes in front of `out` and how many they are, or the refusal. The lists come one by one, as C lends them.
pub fn pack(
    scale: i64,
    inputs: i64,
    codes: &[i64],
    firsts: &[i64],
    seconds: &[i64],
    outputs: &[i64],
    out: &mut [u8],
) -> Result<usize, Refused>
    ensures { Packs (handed scale inputs
        (parts codes.now firsts.now seconds.now outputs.now))
        out.old out.new result }
{
    let given = Handed {
        scale,
        inputs,
        codes,
        firsts,
        seconds,
        outputs,
    };
    let bits = formula_size(&given)?;
    let bytes = bits.div_ceil(8);
    if out.len() < bytes {
        return Err(Refusal::NoRoom.into());
    }
    Ok(write(&given, out))
}

// Reading back: from packed bytes to the numbers that would be handed over for them, in lent lists.
#![tactic(auto)]

ghost use Rattle.packing.specs.Raw.{parts};
ghost use Rattle.packing.specs.PackAnswers.{Unpacks};
ghost use Rattle.checking.specs.CheckAnswers.{check_answer};

use checking::checking::check;
use filling::{fill_outputs, fill_program};
use formulas::Header;
use refusals::Refusal;

// The instructions and outputs of a formula in lent lists, one list a part; F, m, l and n, or the refusal. The lists come
// one by one, as C lends them.
pub fn unpack(
    s: &[u8],
    codes: &mut [i64],
    firsts: &mut [i64],
    seconds: &mut [i64],
    outputs: &mut [i64],
) -> Result<Header, Refusal>
    ensures { Unpacks s.now
        (parts codes.old firsts.old seconds.old outputs.old)
        (parts codes.new firsts.new seconds.new outputs.new)
        (check_answer result) }
{
    let h = check(s)?;
    let l = h.instructions;
    if codes.len() < l || firsts.len() < l || seconds.len() < l || outputs.len() < h.outputs {
        return Err(Refusal::NoRoom);
    }
    let c = fill_program(s, h, codes, firsts, seconds);
    fill_outputs(s, c, h.outputs, outputs);
    Ok(h)
}

// The check job: whether bytes are a formula.
ghost use Rattle.std.specs.Prelude.{◌≡◌};
ghost use Rattle.packed.specs.Meaning.{checked};
ghost use Rattle.heading.specs.HeaderAnswers.{WellHeaded};
ghost use Rattle.checking.specs.CheckAnswers.{check_answer, BodyPassed};

use crate::passing::{pass_instructions, pass_outputs};
use bits::Cursor;
use formulas::Header;
use refusals::Refusal;

// All that follows a header, to the last bit.
fn pass_body(s: &[u8], h: Header, c: Cursor) -> Result<(), Refusal>
    requires { WellHeaded h c }
    ensures { BodyPassed s.now h c result }
{
    let d = pass_instructions(s, c, h.scale, h.inputs, h.instructions)?;
    let e = pass_outputs(s, d, h.inputs + h.instructions, h.outputs)?;
    if !padding::padded(s, e) {
        return Err(Refusal::Padding);
    }
    Ok(())
}

// F, m, l and n, or the refusal.
pub fn check(s: &[u8]) -> Result<Header, Refusal>
    ensures { check_answer result ≡ checked s.now }
{
    let x = bits::ahead(s, Cursor { at: 0 });
    let c = heading::pass(s, x)?;
    let h = heading::header_of(x);
    pass_body(s, h, c)?;
    Ok(h)
}

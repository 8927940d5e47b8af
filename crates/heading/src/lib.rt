// The header, whose 32 bits all are ahead of the first: version, scale, inputs, instructions, outputs.
#![tactic(auto)]

ghost use Rattle.std.specs.Prelude.{◌≡◌};
ghost use Rattle.bits.specs.Bits.{bits};
ghost use Rattle.bits.specs.Fields.{Ahead};
ghost use Rattle.heading.specs.HeaderAnswers.{header_of, HeaderPassed};

use bits::Cursor;
use formulas::Header;
use refusals::Refusal;

// Each field must be there, and then be permitted.
#[tactic(auto, using(crate::proofs::Headings::found))]
pub fn pass(s: &[u8], x: u64) -> Result<Cursor, Refusal>
    requires { Ahead 57 (bits s.now) x }
    ensures { HeaderPassed s.now x result }
{
    let long = s.len();
    let h = header_of(x);
    if long < 1 {
        return Err(Refusal::Ended);
    }
    if (x >> 57) % 128 != 1 {
        return Err(Refusal::Version);
    }
    if long < 2 {
        return Err(Refusal::Ended);
    }
    if 31 <= h.scale {
        return Err(Refusal::Scale);
    }
    if long < 3 {
        return Err(Refusal::Ended);
    }
    if 17 <= h.inputs {
        return Err(Refusal::Count);
    }
    if long < 4 {
        return Err(Refusal::Ended);
    }
    if 513 <= h.instructions || h.outputs < 1 || 17 <= h.outputs {
        return Err(Refusal::Count);
    }
    Ok(Cursor { at: 32 })
}

pub fn header_of(x: u64) -> Header
    ensures { result ≡ header_of x }
{
    Header {
        scale: ((x >> 52) % 32) as u32,
        inputs: ((x >> 47) % 32) as usize,
        instructions: ((x >> 37) % 1024) as usize,
        outputs: ((x >> 32) % 32) as usize,
    }
}

// An instruction with the tests of its fields; it makes value `below` of a formula of that scale.
#![tactic(auto)]

ghost use Rattle.std.specs.Prelude.{◌+◌, ◌/◌, ◌^◌, ◌≤◌, length};
ghost use Rattle.packed.specs.ReaderAnswers.{Instructed, InstructedFrom, ReadBelow, ReadFrom};
ghost use Rattle.packed.specs.ReaderAnswers.{Zeroth, Operands, Beyond, Fifth, Sixth};

use bits::Cursor;
use formulas::Instruction;
use packed::Decoded;
use packed::coefficient::gather;
use packed::loaded::{CODE, CONSTANT, Loaded, OPERAND, load};
use packed::making::{combine, signed};
use refusals::Refusal;

// A constant; `l` stands before the code.
#[tactic(auto, using(crate::proofs::Found::constants))]
pub fn read_constant(s: &[u8], l: Loaded) -> Result<Decoded, Refusal>
    requires { Zeroth s.now l }
    ensures { ReadFrom s.now l result }
{
    let code = l.take::<CODE>();
    let constant = code.rest.take::<CONSTANT>();
    if constant.field == 0x8000_0000 {
        return Err(Refusal::Constant);
    }
    Ok(Decoded {
        instruction: Instruction::Constant(signed(constant.field)),
        next: constant.rest.place(),
    })
}

// One operand or two; `l` stands before the code.
#[tactic(auto, using(crate::proofs::Found::operands))]
pub fn read_operands(s: &[u8], l: Loaded, below: usize) -> Result<Decoded, Refusal>
    requires { Operands s.now below l }
    ensures { ReadBelow s.now below l result }
{
    let code = l.take::<CODE>();
    let first = code.rest.take::<OPERAND>();
    if below as u64 <= first.field {
        return Err(Refusal::Operand);
    }
    if code.field == 1 {
        return Ok(Decoded {
            instruction: Instruction::Negate(first.field as usize),
            next: first.rest.place(),
        });
    }
    let second = first.rest.take::<OPERAND>();
    if below as u64 <= second.field {
        return Err(Refusal::Operand);
    }
    Ok(Decoded {
        instruction: combine(code.field, first.field as usize, second.field as usize),
        next: second.rest.place(),
    })
}

// A reciprocal; the scale is tested before the operand is read, which may have ended. `l` stands before the code.
#[tactic(auto, using(crate::proofs::Found::reciprocals))]
fn read_reciprocal(s: &[u8], l: Loaded, scale: u32, below: usize) -> Result<Decoded, Refusal>
    requires { Sixth s.now l }
    ensures { InstructedFrom s.now scale below l result }
{
    if 16 < scale {
        return Err(Refusal::ReciprocalScale);
    }
    let code = l.take::<CODE>();
    let divisor = code.rest.take::<OPERAND>();
    if divisor.rest.ended(s) {
        return Err(Refusal::Ended);
    }
    if below as u64 <= divisor.field {
        return Err(Refusal::Operand);
    }
    Ok(Decoded {
        instruction: Instruction::Reciprocal(divisor.field as usize),
        next: divisor.rest.place(),
    })
}

// A constant with its margin, the last field that may have ended. `l` stands before the code.
#[tactic(auto, using(crate::proofs::Found::margins))]
fn read_coefficient(s: &[u8], l: Loaded) -> Result<Decoded, Refusal>
    requires { Fifth s.now l }
    ensures { ReadFrom s.now l result }
{
    let end = l.at + 66;
    if s.len() < end.div_ceil(8) {
        return Err(Refusal::Ended);
    }
    let both = gather(s, l);
    if whole::magnitude(both.centre) + both.margin <= 0x7fff_ffff {
        return Ok(Decoded {
            instruction: Instruction::Coefficient(both.centre, both.margin),
            next: Cursor { at: end },
        });
    }
    Err(Refusal::Constant)
}

// A code from 5 on; one greater than 6 is none. `l` stands before the code.
pub fn read_beyond(s: &[u8], l: Loaded, scale: u32, below: usize) -> Result<Decoded, Refusal>
    requires { Beyond s.now l }
    ensures { InstructedFrom s.now scale below l result }
{
    match l.take::<CODE>().field {
        5 => read_coefficient(s, l),
        6 => read_reciprocal(s, l, scale, below),
        _ => Err(Refusal::Code),
    }
}

// Where eight bytes are there no field but a margin can have ended.
pub fn read_whole(s: &[u8], c: Cursor, scale: u32, below: usize) -> Result<Decoded, Refusal>
    requires { (c.at ≤ 2 ^ 30) × (c.at / 8 + 8 ≤ length s.now) }
    ensures { Instructed s.now scale below c result }
{
    let l = load(s, c);
    match l.take::<CODE>().field {
        0 => read_constant(s, l),
        1..=4 => read_operands(s, l, below),
        _ => read_beyond(s, l, scale, below),
    }
}

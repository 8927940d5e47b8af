// Lent lists filled from a checked formula: the numbers of its instructions, one list a part, and of its outputs.
#![tactic(auto)]

ghost use Rattle.std.specs.Prelude.{◌≡◌, length};
ghost use Rattle.lists.specs.Over.{over};
ghost use Rattle.formulas.specs.Formula.{Smaller, places};
ghost use Rattle.packed.specs.Meaning.{meant};
ghost use Rattle.packing.specs.Raw.{raw, raw_of};
ghost use Rattle.walks.specs.Walks.{AtOutputs};
ghost use Rattle.outputs.specs.Picking.{Pickable};
ghost use Rattle.filling.specs.Filling.{parts_in, ProgramFills};

use bits::Cursor;
use formulas::{Header, Instruction};
use packed::loaded::load;
use packed::walking::decode_ahead;

// An instruction as its code and two fields; a missing field is 0. At whatever scale: all that is permitted at another is
// at scale 0.
fn numbers_of(i: Instruction) -> (i64, i64, i64)
    requires { Smaller 0 1024 i }
    ensures { raw result.0 result.1 result.2 ≡ raw_of i }
{
    match i {
        Instruction::Constant(c) => (0, c, 0),
        Instruction::Negate(a) => (1, a as i64, 0),
        Instruction::Add(a, b) => (2, a as i64, b as i64),
        Instruction::Subtract(a, b) => (3, a as i64, b as i64),
        Instruction::Multiply(a, b) => (4, a as i64, b as i64),
        Instruction::Coefficient(c, r) => (5, c, r as i64),
        Instruction::Reciprocal(a) => (6, a as i64, 0),
    }
}

// All instructions of a checked formula, one list a part, and the place after them.
pub fn fill_program(
    s: &[u8],
    h: Header,
    codes: &mut [i64],
    firsts: &mut [i64],
    seconds: &mut [i64],
) -> Cursor
    requires { ProgramFills s.now h (length codes.old) (length firsts.old) (length seconds.old) }
    ensures { AtOutputs s.now result
        × (codes.new ≡ over (parts_in s.now).codes codes.old)
        × (firsts.new ≡ over (parts_in s.now).firsts firsts.old)
        × (seconds.new ≡ over (parts_in s.now).seconds seconds.old) }
{
    let mut at = Cursor { at: 32 };
    for k in 0..h.instructions {
        let d = decode_ahead(s, load(s, at));
        let (code, first, second) = numbers_of(d.instruction);
        codes[k] = code;
        firsts[k] = first;
        seconds[k] = second;
        at = d.next;
    }
    at
}

// The numbers of the `count` output fields from the cursor on. `outputs::pick` has the same loop, for the values that they
// name: its jobs have readings and work lists, of which there are none here.
pub fn fill_outputs(s: &[u8], c: Cursor, count: usize, outputs: &mut [i64])
    requires { Pickable s.now c count (places (meant s.now).header) (length outputs.old) }
    ensures { outputs.new ≡ over (parts_in s.now).outputs outputs.old }
{
    let mut at = c;
    for k in 0..count {
        let (o, next) = at.field(s, 10).unwrap();
        outputs[k] = o as i64;
        at = next;
    }
}

// The instructions of a checked formula, one by one: all the fields of one come out of what is ahead of it, but for a
// margin, and nothing is tested again.
ghost use Rattle.std.specs.Prelude.{◌^◌, ◌≤◌};
ghost use Rattle.packed.specs.Loading.{place_of, Carries};
ghost use Rattle.packed.specs.Walk.{Readable, DecodesFrom};

use crate::Decoded;
use crate::coefficient::gather;
use crate::loaded::{CODE, CONSTANT, Loaded, OPERAND};
use crate::making::{combine, signed};
use bits::Cursor;
use formulas::Instruction;

pub fn decode_ahead(s: &[u8], l: Loaded) -> Decoded
    requires { (l.at ≤ 2 ^ 30) × Readable s.now (place_of l) × Carries s.now l 57 }
    ensures { DecodesFrom s.now l result.instruction result.next }
{
    let code = l.take::<CODE>();
    if code.field == 0 {
        let constant = code.rest.take::<CONSTANT>();
        return Decoded {
            instruction: Instruction::Constant(signed(constant.field)),
            next: constant.rest.place(),
        };
    }
    if 5 <= code.field {
        if code.field == 6 {
            let divisor = code.rest.take::<OPERAND>();
            return Decoded {
                instruction: Instruction::Reciprocal(divisor.field as usize),
                next: divisor.rest.place(),
            };
        }
        let both = gather(s, l);
        return Decoded {
            instruction: Instruction::Coefficient(both.centre, both.margin),
            next: Cursor { at: l.at + 66 },
        };
    }
    let first = code.rest.take::<OPERAND>();
    if code.field == 1 {
        return Decoded {
            instruction: Instruction::Negate(first.field as usize),
            next: first.rest.place(),
        };
    }
    let second = first.rest.take::<OPERAND>();
    Decoded {
        instruction: combine(code.field, first.field as usize, second.field as usize),
        next: second.rest.place(),
    }
}

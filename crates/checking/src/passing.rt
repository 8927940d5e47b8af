// All the instructions and all the outputs, tested one after another; only the place after them is kept.
ghost use Rattle.std.specs.Prelude.{◌*◌, ◌^◌, ◌≤◌};
ghost use Rattle.packed.specs.Format.{program, results, widest};
ghost use Rattle.checking.specs.CheckAnswers.{PassedOver};

use bits::Cursor;
use near_end::{near_end, read_instruction};
use reading::read_whole;
use refusals::Refusal;

// `count` instructions, the first of which makes value `first`, where the bytes may end inside one.
fn pass_last(s: &[u8], c: Cursor, scale: u32, first: usize, count: usize) -> Result<Cursor, Refusal>
    requires { (c.at ≤ 2 ^ 20) × (first ≤ 528) × (count ≤ 512) }
    ensures { PassedOver s.now (program scale count first) (widest * count) c result }
{
    let mut at = c;
    for below in first..first + count {
        at = read_instruction(s, at, scale, below)?.next;
    }
    Ok(at)
}

// The same from a header on: as long as eight bytes are there an instruction is read whole.
pub(crate) fn pass_instructions(
    s: &[u8],
    c: Cursor,
    scale: u32,
    inputs: usize,
    count: usize,
) -> Result<Cursor, Refusal>
    requires { (c.at ≤ 32) × (inputs ≤ 16) × (count ≤ 512) }
    ensures { PassedOver s.now (program scale count inputs) (widest * count) c result }
{
    let mut at = c;
    let end = inputs + count;
    for below in inputs..end {
        if near_end(s, at) {
            return pass_last(s, at, scale, below, end - below);
        }
        at = read_whole(s, at, scale, below)?.next;
    }
    Ok(at)
}

// `count` outputs, each naming a value below `below`.
pub(crate) fn pass_outputs(
    s: &[u8],
    c: Cursor,
    below: usize,
    count: usize,
) -> Result<Cursor, Refusal>
    requires { (c.at ≤ 2 ^ 20) × (count ≤ 16) }
    ensures { PassedOver s.now (results count below) (10 * count) c result }
{
    let mut at = c;
    for _k in 0..count {
        let Some((n, next)) = at.field(s, 10) else {
            return Err(Refusal::Ended);
        };
        if below as u64 <= n {
            return Err(Refusal::Operand);
        }
        at = next;
    }
    Ok(at)
}

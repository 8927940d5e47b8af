// An instruction where the bytes may end inside one; it makes value `below` of a formula of that scale.
#![tactic(auto)]

ghost use Rattle.std.specs.Prelude.{◌≡◌, ◌+◌, ◌/◌, ◌^◌, ◌≤◌, ltb, length};
ghost use Rattle.packed.specs.ReaderAnswers.{Instructed, ReadFrom, ZeroCode, Named, CutShort};

use bits::Cursor;
use packed::Decoded;
use packed::loaded::{CODE, CONSTANT, Loaded, OPERAND, load};
use reading::{read_beyond, read_constant, read_operands};
use refusals::Refusal;

// Whether fewer than eight bytes are there.
pub fn near_end(s: &[u8], c: Cursor) -> bool
    requires { c.at ≤ 2 ^ 30 }
    ensures { result ≡ ltb (length s.now) (c.at / 8 + 8) }
{
    s.len() < c.at / 8 + 8
}

// Whether the bytes end inside an operand before another refusal is due. Past their end what is ahead is 0.
fn cut_short(s: &[u8], l: Loaded, below: usize) -> bool
    requires { Named s.now l }
    ensures { CutShort s.now below l result }
{
    let code = l.take::<CODE>();
    let first = code.rest.take::<OPERAND>();
    if first.rest.ended(s) {
        return true;
    }
    if code.field == 1 || below as u64 <= first.field {
        return false;
    }
    let second = first.rest.take::<OPERAND>();
    second.rest.ended(s)
}

// A constant that may have ended.
#[tactic(auto, using(packed::proofs::Inside::cut_constant))]
fn last_constant(s: &[u8], l: Loaded) -> Result<Decoded, Refusal>
    requires { ZeroCode s.now l }
    ensures { ReadFrom s.now l result }
{
    let code = l.take::<CODE>();
    let constant = code.rest.take::<CONSTANT>();
    if constant.rest.ended(s) {
        return Err(Refusal::Ended);
    }
    read_constant(s, l)
}

pub fn read_instruction(s: &[u8], c: Cursor, scale: u32, below: usize) -> Result<Decoded, Refusal>
    requires { c.at ≤ 2 ^ 30 }
    ensures { Instructed s.now scale below c result }
{
    let l = load(s, c);
    let code = l.take::<CODE>();
    if code.rest.ended(s) {
        return Err(Refusal::Ended);
    }
    match code.field {
        0 => last_constant(s, l),
        1..=4 => {
            if cut_short(s, l, below) {
                return Err(Refusal::Ended);
            }
            read_operands(s, l, below)
        }
        _ => read_beyond(s, l, scale, below),
    }
}

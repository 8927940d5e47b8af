// The padding: what is left behind the outputs.
#![tactic(auto)]

ghost use Rattle.std.specs.Prelude.{◌≡◌, ◌%◌, ◌^◌, ◌≤◌};
ghost use Rattle.bits.specs.Fields.{before};
ghost use Rattle.packed.specs.Format.{is_padding};

use bits::Cursor;

fn low(b: u8, width: u32) -> u64
    requires { width ≤ 8 }
    ensures { result ≡ b % 2 ^ width }
{
    u64::from(b) % (1 << width)
}

// Whether the bits left are fewer than eight, and all zero.
#[tactic(auto, using(crate::proofs::Paddings::found))]
pub fn padded(s: &[u8], c: Cursor) -> bool
    requires { c.at ≤ 2 ^ 20 }
    ensures { result ≡ is_padding (before s.now c) }
{
    let at = c.at;
    if at.div_ceil(8) < s.len() {
        return false;
    }
    if at % 8 == 0 || s.len() <= at / 8 {
        return true;
    }
    low(s[at / 8], 8 - (at % 8) as u32) == 0
}

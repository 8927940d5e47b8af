// Numbers in decimal.
ghost use Rattle.std.specs.Prelude.{◌∷◌, ◌+◌, ◌≤◌, length};
ghost use Rattle.printing.specs.Decimal.{decimal, signed_decimal};
ghost use Rattle.lists.specs.Written.{Wrote};

use crate::bytes::put;

pub fn put_number(n: u64, out: &mut [u8], at: usize) -> usize
    requires { at + 20 ≤ length out.old }
    ensures { Wrote (decimal n) at out.old out.new result }
{
    if n < 10 {
        return put(b'0' + n as u8, out, at);
    }
    let next = put_number(n / 10, out, at);
    put(b'0' + (n % 10) as u8, out, next)
}

fn put_signed(x: i64, out: &mut [u8], at: usize) -> usize
    requires { at + 21 ≤ length out.old }
    ensures { Wrote (signed_decimal x) at out.old out.new result }
{
    if x < 0 {
        put_marked(b'-', x.unsigned_abs(), out, at)
    } else {
        put_number(x.unsigned_abs(), out, at)
    }
}

// A mark and a number right behind it.
pub fn put_marked(mark: u8, n: u64, out: &mut [u8], at: usize) -> usize
    requires { at + 21 ≤ length out.old }
    ensures { Wrote (mark ∷ decimal n) at out.old out.new result }
{
    let next = put(mark, out, at);
    put_number(n, out, next)
}

// As `put_marked`, of a number that may be below zero: a trait for both kinds would hold these two bodies.
pub fn put_marked_signed(mark: u8, x: i64, out: &mut [u8], at: usize) -> usize
    requires { at + 22 ≤ length out.old }
    ensures { Wrote (mark ∷ signed_decimal x) at out.old out.new result }
{
    let next = put(mark, out, at);
    put_signed(x, out, next)
}

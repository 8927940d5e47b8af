// Texts of counts of 10^-d, written into a list of bytes that the caller lends. Each function takes the list and the
// place to write from, and answers the place after what it wrote.
#![tactic(auto)]

ghost use Rattle.std.specs.Prelude.{◌+◌, ◌≤◌, ◌<◌, length};
ghost use Rattle.lists.specs.Written.{Wrote};
ghost use Rattle.decimal_texts.specs.Texts.{last_digits, behind, unsigned_text, text, ball_text};
ghost use Rattle.decimal_printer.specs.Room.{Room};

use numerals::power_of_ten;
use printing::bytes::{put, put_word};
use printing::numbers::put_number;
use whole::magnitude;

// The last digits of a number, with zeros in front where it has fewer.
fn put_last(count: u64, digits: u32, out: &mut [u8], at: usize) -> usize
    requires { at + digits ≤ length out.old }
    ensures { Wrote (last_digits digits count) at out.old out.new result }
{
    let mut left = count;
    let end = at + digits as usize;
    for place in (at..end).rev() {
        out[place] = b'0' + (left % 10) as u8;
        left /= 10;
    }
    end
}

// The point and what stands behind it, where there are decimals.
fn put_behind(count: u64, decimals: u32, out: &mut [u8], at: usize) -> usize
    requires { at + decimals < length out.old }
    ensures { Wrote (behind decimals count) at out.old out.new result }
{
    if decimals == 0 {
        return at;
    }
    let next = put(b'.', out, at);
    put_last(count, decimals, out, next)
}

pub fn put_unsigned(count: u64, decimals: u32, out: &mut [u8], at: usize) -> usize
    requires { Room 30 decimals at out.old }
    ensures { Wrote (unsigned_text decimals count) at out.old out.new result }
{
    let next = put_number(count / power_of_ten(decimals), out, at);
    put_behind(count, decimals, out, next)
}

pub fn put_signed(count: i64, decimals: u32, out: &mut [u8], at: usize) -> usize
    requires { Room 31 decimals at out.old }
    ensures { Wrote (text decimals count) at out.old out.new result }
{
    let next = if count < 0 { put(b'-', out, at) } else { at };
    put_unsigned(magnitude(count), decimals, out, next)
}

// The centre, give or take the margin.
pub fn put_ball(centre: i64, margin: u64, decimals: u32, out: &mut [u8], at: usize) -> usize
    requires { Room 65 decimals at out.old }
    ensures { Wrote (ball_text decimals centre margin) at out.old out.new result }
{
    let signed = put_signed(centre, decimals, out, at);
    let joined = put_word(b" +- ", out, signed);
    put_unsigned(margin, decimals, out, joined)
}

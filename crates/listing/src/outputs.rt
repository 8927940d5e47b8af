// A line for each output, of index 0 on.
ghost use Rattle.std.specs.Prelude.{ℕ, ◌+◌, ◌≤◌, ◌<◌, length, take};
ghost use Rattle.rules.specs.Lists.{balls, matryoshki};
ghost use Rattle.lists.specs.Written.{Wrote};
ghost use Rattle.listing.specs.OutputLines.{plain_fields, ball_fields, matryoshka_fields, listed};
ghost use Rattle.listing.specs.OutputLines.{Lists};

use crate::lines::{Fields, put_line};
use rules::{Ball, Matryoshka};

// The lines of the values that `value` gives for the indices below `count`.
fn put_lines<T: Fields, F: Fn(usize) -> T>(
    count: usize,
    value: F,
    out: &mut [u8],
    at: usize,
) -> usize
    requires few { count ≤ 16 }
    requires room { at + 1600 ≤ length out.old }
    requires callable { (i : ℕ) → i < count → F.pre value i }
    ensures { Lists T.fields (F.post value) count at out.old out.new result }
{
    let mut next = at;
    for i in 0..count {
        next = put_line(i, value(i), out, next);
    }
    next
}

pub fn put_plain(values: &[i64], count: usize, out: &mut [u8], at: usize) -> usize
    requires { (count ≤ 16) × (count ≤ length values.now) × (at + 1600 ≤ length out.old) }
    ensures { Wrote (listed plain_fields 0 (take count values.now))
        at out.old out.new result }
{
    put_lines(count, |i| values[i], out, at)
}

pub fn put_balls(centres: &[i64], margins: &[u64], count: usize, out: &mut [u8], at: usize) -> usize
    requires { (count ≤ 16) × (count ≤ length centres.now) × (count ≤ length margins.now)
        × (at + 1600 ≤ length out.old) }
    ensures { Wrote (listed ball_fields 0 (balls (take count centres.now) (take count margins.now)))
        at out.old out.new result }
{
    put_lines(
        count,
        |i| Ball {
            centre: centres[i],
            margin: margins[i],
        },
        out,
        at,
    )
}

pub fn put_matryoshki(
    middles: &[i64],
    strays: &[u64],
    margins: &[u64],
    count: usize,
    out: &mut [u8],
    at: usize,
) -> usize
    requires { (count ≤ 16) × (count ≤ length middles.now) × (count ≤ length strays.now)
        × (count ≤ length margins.now) × (at + 1600 ≤ length out.old) }
    ensures { Wrote (listed matryoshka_fields 0 (matryoshki (take count middles.now)
        (take count strays.now) (take count margins.now)))
        at out.old out.new result }
{
    put_lines(
        count,
        |i| Matryoshka {
            middle: middles[i],
            stray: strays[i],
            margin: margins[i],
        },
        out,
        at,
    )
}

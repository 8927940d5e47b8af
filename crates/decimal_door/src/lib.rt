// Decimals out and in, as a program in C or Rust links them.
#![tactic(auto)]

ghost use Rattle.rules.specs.Balls.{ball};
ghost use Rattle.decimal_jobs.specs.Out.{out_lists};
ghost use Rattle.decimal_jobs.specs.In.{in_lists};
ghost use Rattle.decimal_door.specs.DecimalDoors.{OutDoor, InDoor};

use decimal_jobs::{from_decimal, to_decimal};
use replies::{MarginsPacked, MarginsReply, packed_told, replied};
use rules::Ball;

pub fn margins_to_decimal(
    scale: i64,
    decimals: i64,
    centre: i64,
    margin: u64,
    centres: &mut [i64],
    margins: &mut [u64],
    text: &mut [u8],
) -> MarginsPacked
    ensures { OutDoor scale decimals (ball centre margin)
        (out_lists centres.old margins.old text.old)
        (out_lists centres.new margins.new text.new) result }
{
    let b = Ball { centre, margin };
    packed_told(to_decimal(scale, decimals, b, centres, margins, text))
}

pub fn margins_from_decimal(
    scale: i64,
    number: &[u8],
    margin: &[u8],
    centres: &mut [i64],
    margins: &mut [i64],
) -> MarginsReply
    ensures { InDoor scale number.now margin.now
        (in_lists centres.old margins.old)
        (in_lists centres.new margins.new) result }
{
    replied(from_decimal(scale, number, margin, centres, margins))
}

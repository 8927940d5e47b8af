// The card of static margins, made and used, as a program in C or Rust links it.
#![tactic(auto)]

ghost use Rattle.formulas.specs.Readings.{ball_readings, domain};
ghost use Rattle.card_user.specs.Uses.{brought};
ghost use Rattle.card_maker.specs.Parts.{card_lists};
ghost use Rattle.card_door.specs.CardDoors.{CardDoor, UseDoor};

use card_maker::making::make_card;
use card_user::use_card;
use replies::{MarginsReply, replied};

pub fn margins_make_card(
    bytes: &[u8],
    middles: &[i64],
    strays: &[i64],
    margins: &[i64],
    static_margins: &mut [u64],
    slopes: &mut [u64],
) -> MarginsReply
    ensures { CardDoor bytes.now
        (domain middles.now strays.now margins.now)
        (card_lists static_margins.old slopes.old)
        (card_lists static_margins.new slopes.new) result }
{
    replied(make_card(bytes, middles, strays, margins, static_margins, slopes))
}

pub fn margins_use_card(
    scale: i64,
    inputs: i64,
    outputs: i64,
    middles: &[i64],
    strays: &[i64],
    static_margins: &[u64],
    slopes: &[u64],
    centres: &[i64],
    margins: &[i64],
    output_margins: &mut [u64],
) -> MarginsReply
    ensures { UseDoor (brought scale inputs outputs (ball_readings middles.now strays.now)
        static_margins.now slopes.now
        (ball_readings centres.now margins.now))
        output_margins.old output_margins.new result }
{
    replied(use_card(
        scale,
        inputs,
        outputs,
        middles,
        strays,
        static_margins,
        slopes,
        centres,
        margins,
        output_margins,
    ))
}

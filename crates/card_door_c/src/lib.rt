// The card of static margins, made and used, under their C names: what `card_door` promises.
#![tactic(auto)]

ghost use Rattle.formulas.specs.Readings.{domain, ball_readings};
ghost use Rattle.card_maker.specs.Parts.{card_lists};
ghost use Rattle.card_door.specs.CardDoors.{CardDoor, UseDoor};
ghost use Rattle.card_user.specs.Uses.{brought};

use replies::MarginsReply;

#[unsafe(no_mangle)]
pub extern "C" fn margins_make_card(
    bytes: &[u8],
    middles: &[i64],
    strays: &[i64],
    margins: &[i64],
    static_margins: &mut [u64],
    slopes: &mut [u64],
) -> MarginsReply
    ensures { CardDoor bytes.now
        (domain middles.now strays.now margins.now)
        (card_lists static_margins.old slopes.old)
        (card_lists static_margins.new slopes.new) result }
{
    card_door::margins_make_card(bytes, middles, strays, margins, static_margins, slopes)
}

#[unsafe(no_mangle)]
pub extern "C" fn margins_use_card(
    scale: i64,
    inputs: i64,
    outputs: i64,
    middles: &[i64],
    strays: &[i64],
    static_margins: &[u64],
    slopes: &[u64],
    centres: &[i64],
    margins: &[i64],
    output_margins: &mut [u64],
) -> MarginsReply
    ensures { UseDoor (brought scale inputs outputs (ball_readings middles.now strays.now)
        static_margins.now slopes.now
        (ball_readings centres.now margins.now))
        output_margins.old output_margins.new result }
{
    card_door::margins_use_card(
        scale,
        inputs,
        outputs,
        middles,
        strays,
        static_margins,
        slopes,
        centres,
        margins,
        output_margins,
    )
}

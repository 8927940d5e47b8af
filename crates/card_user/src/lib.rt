// A card put to use: the margins of a reading, with no walk through the formula.
#![tactic(auto)]

ghost use Rattle.formulas.specs.Readings.{ball_readings};
ghost use Rattle.cards.specs.Lent.{UseKept};
ghost use Rattle.card_user.specs.Uses.{brought, Counted, used};

use readings::{GivenBalls, test};
use refusals::{Refusal, Refused};
use testing::{all_inside, counts_fit};
use whole::below;

pub mod adding;
pub mod testing;

// A card of so many inputs and outputs as a caller lends it: E of each output, and its L of each input.
#[derive(Clone, Copy)]
pub(crate) struct Card<'a> {
    pub scale: u32,
    pub inputs: usize,
    pub outputs: usize,
    pub static_margins: &'a [u64],
    pub slopes: &'a [u64],
}

// A scale and counts that passed: the domain is tested, the balls, the lists, the card.
fn with_counts(
    card: Card,
    domain: GivenBalls,
    balls: GivenBalls,
    output_margins: &mut [u64],
) -> Result<usize, Refused>
    requires { Counted card.scale card.inputs card.outputs }
    ensures { UseKept (used card.entry (ball_readings domain.entry.centres.now domain.entry.margins.now)
        (ball_readings balls.entry.centres.now balls.entry.margins.now))
        output_margins.old output_margins.new result }
{
    test(&domain, card.inputs)?;
    test(&balls, card.inputs)?;
    if !card.has_room(output_margins.len()) {
        return Err(Refusal::NoRoom.into());
    }
    if !card.is_low() || !all_inside(domain, balls, card.inputs) {
        return Err(Refusal::CardMisfit.into());
    }
    card.put_margins(balls.margins, output_margins)
}

// The margin of each output in front of `output_margins` for these balls inside this domain, or the refusal and its
// place: the scale, the counts, the domain, the balls, the lists, the card, the sums.
pub fn use_card(
    scale: i64,
    inputs: i64,
    outputs: i64,
    middles: &[i64],
    strays: &[i64],
    static_margins: &[u64],
    slopes: &[u64],
    centres: &[i64],
    margins: &[i64],
    output_margins: &mut [u64],
) -> Result<usize, Refused>
    ensures { UseKept (brought scale inputs outputs (ball_readings middles.now strays.now)
        static_margins.now slopes.now
        (ball_readings centres.now margins.now))
        output_margins.old output_margins.new result }
{
    if !below(scale, 31) {
        return Err(Refusal::Scale.into());
    }
    if !counts_fit(inputs, outputs) {
        return Err(Refusal::Count.into());
    }
    let card = Card {
        scale: scale as u32,
        inputs: inputs as usize,
        outputs: outputs as usize,
        static_margins,
        slopes,
    };
    let domain = GivenBalls {
        centres: middles,
        margins: strays,
    };
    with_counts(
        card,
        domain,
        GivenBalls { centres, margins },
        output_margins,
    )
}

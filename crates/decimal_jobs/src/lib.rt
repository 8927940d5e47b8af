// Honest decimals: a ball out to a decimal centre and a decimal margin, and decimal texts in to a ball.
#![tactic(auto)]

ghost use Rattle.decimal_jobs.specs.Tests.{Natural, InReach, HavePlaces, HaveRoom};
ghost use Rattle.decimal_jobs.specs.Out.{out_lists, ToDecimal};
ghost use Rattle.decimal_jobs.specs.In.{in_lists, FromDecimal};

use decimal_printer::put_ball;
use decimal_reader::{margin_of, number_of};
use decimals::{ball_of, count_of};
use numerals::placed;
use printing::bytes::put_word;
use refusals::{Refusal, Refused};
use rounding::within;
use rules::Ball;
use whole::{below, magnitude};

// A number from 0 on and below a limit.
fn natural(z: i64, limit: u32, otherwise: Refusal) -> Result<u32, Refusal>
    ensures { Natural limit otherwise z result }
{
    if below(z, u64::from(limit)) {
        Ok(z as u32)
    } else {
        Err(otherwise)
    }
}

// A ball's reach is at most M.
fn in_reach(b: Ball) -> Result<(), Refusal>
    ensures { InReach b result }
{
    if within(magnitude(b.centre), 0, b.margin) {
        Ok(())
    } else {
        Err(Refusal::BallReach)
    }
}

// Two lists of these lengths have a place each.
fn have_places(centres: usize, margins: usize) -> Result<(), Refusal>
    ensures { HavePlaces centres margins result }
{
    if 0 < centres && 0 < margins {
        Ok(())
    } else {
        Err(Refusal::NoRoom)
    }
}

// And a third one so many.
fn have_room(bytes: usize, text: usize, centres: usize, margins: usize) -> Result<(), Refusal>
    ensures { HaveRoom bytes text centres margins result }
{
    if text < bytes {
        return Err(Refusal::NoRoom);
    }
    have_places(centres, margins)
}

// A ball in counts of 10^-decimals, and their text. The text is made aside, so that a list that is too short is seen
// before anything is written.
pub fn to_decimal(
    scale: i64,
    decimals: i64,
    b: Ball,
    centres: &mut [i64],
    margins: &mut [u64],
    text: &mut [u8],
) -> Result<usize, Refused>
    ensures { ToDecimal scale decimals b
        (out_lists centres.old margins.old text.old)
        (out_lists centres.new margins.new text.new) result }
{
    let scale = natural(scale, 31, Refusal::Scale)?;
    let decimals = natural(decimals, 10, Refusal::DecimalPlaces)?;
    in_reach(b)?;
    let counts = count_of(scale, decimals, b);
    let mut aside = [0u8; 65];
    let bytes = put_ball(counts.centre, counts.margin, decimals, &mut aside, 0);
    have_room(bytes, text.len(), centres.len(), margins.len())?;
    centres[0] = counts.centre;
    margins[0] = counts.margin;
    put_word(&aside[..bytes], text, 0);
    Ok(bytes)
}

// A number's text and a margin's text, as a reading at the scale.
pub fn from_decimal(
    scale: i64,
    number: &[u8],
    margin: &[u8],
    centres: &mut [i64],
    margins: &mut [i64],
) -> Result<usize, Refused>
    ensures { FromDecimal scale number.now margin.now
        (in_lists centres.old margins.old)
        (in_lists centres.new margins.new) result }
{
    let scale = natural(scale, 31, Refusal::Scale)?;
    let number = placed(number_of(number), Refusal::NumberText)?;
    let margin = placed(margin_of(margin), Refusal::MarginText)?;
    let b = ball_of(scale, number, margin);
    in_reach(b)?;
    have_places(centres.len(), margins.len())?;
    centres[0] = b.centre;
    margins[0] = b.margin as i64;
    Ok(1)
}

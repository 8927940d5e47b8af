// The readings a caller brings: as many as were asked for, in each list that carries them, and each within its limits;
// or which one is not, and why.
#![tactic(auto)]

ghost use Rattle.std.specs.Prelude.{◌≡◌};
ghost use Rattle.formulas.specs.Readings.{reading, Brought, each_counts, ball_readings, plain_brought, balls_brought};
ghost use Rattle.readings.specs.Judges.{InEach, Reads, Judges, JudgesAll};

use refusals::{Refusal, Refused};
use rounding::within;
use whole::magnitude;

// A reading as it arrives; a part that its kind lacks is 0.
#[derive(Clone, Copy)]
pub struct Reading {
    pub centre: i64,
    pub stray: i64,
    pub margin: i64,
}

// One reading, at its place. Once the signs are known, two of the sizes cost nothing.
pub fn judge(g: Reading, at: usize) -> Result<(), Refused>
    ensures { Judges (reading g.centre g.stray g.margin) at result }
{
    if g.stray < 0 || g.margin < 0 {
        return Err(Refused {
            why: Refusal::NegativeMargin,
            place: at,
        });
    }
    if !within(magnitude(g.centre), magnitude(g.stray), magnitude(g.margin)) {
        return Err(Refused {
            why: Refusal::ReadingTooLarge,
            place: at,
        });
    }
    Ok(())
}

// What a caller brings: a list for each part of a reading.
pub trait Readings {
    ghost brought: { Self → Brought };

    // Whether each list has m numbers.
    fn count_is(&self, m: usize) -> bool
        ensures { result ≡ each_counts m (brought self.now).counts };

    fn at(&self, i: usize) -> Reading
        requires { InEach i (brought self.now) }
        ensures { Reads (brought self.now) i (reading result.centre result.stray result.margin) };
}

// Whether these are m readings.
pub fn test<R: Readings>(given: &R, m: usize) -> Result<(), Refused>
    ensures { JudgesAll m (R.brought given.now) result }
{
    if !given.count_is(m) {
        return Err(Refusal::ReadingCount.into());
    }
    for i in 0..m {
        judge(given.at(i), i)?;
    }
    Ok(())
}

// Bare readings.
#[derive(Clone, Copy)]
pub struct GivenValues<'a> {
    pub values: &'a [i64],
}

impl Readings for GivenValues<'_> {
    ghost brought = { λ g. plain_brought g.values.now };

    fn count_is(&self, m: usize) -> bool {
        self.values.len() == m
    }

    fn at(&self, i: usize) -> Reading {
        Reading {
            centre: self.values[i],
            stray: 0,
            margin: 0,
        }
    }
}

// Readings with their margins.
#[derive(Clone, Copy)]
pub struct GivenBalls<'a> {
    pub centres: &'a [i64],
    pub margins: &'a [i64],
}

impl Readings for GivenBalls<'_> {
    ghost brought = { λ g. balls_brought (ball_readings g.centres.now g.margins.now) };

    fn count_is(&self, m: usize) -> bool {
        self.centres.len() == m && self.margins.len() == m
    }

    fn at(&self, i: usize) -> Reading {
        Reading {
            centre: self.centres[i],
            stray: 0,
            margin: self.margins[i],
        }
    }
}

// The slopes of one instruction, from those of its operands and their balls.
ghost use Rattle.std.specs.Prelude.{◌≡◌, ◌+◌, ◌≤◌, ◌<◌};
ghost use Rattle.rules.specs.Numbers.{M};
ghost use Rattle.rules.specs.Values.{ball_reach};
ghost use Rattle.cards.specs.Slopes.{nearness};
ghost use Rattle.cards.specs.Slopes as slopes_of;
ghost use Rattle.slope_walk.specs.Grading.{ball_in, Ranged, RangedAway, Sloping, Sloped};

use crate::rows::{lay, product_slope, reciprocal_slope};
use formulas::Instruction;
use refusals::Refusal;
use whole::magnitude;

// The balls of a run's values.
#[derive(Clone, Copy)]
pub(crate) struct Balls<'a> {
    pub centres: &'a [i64],
    pub margins: &'a [u64],
}

impl Balls<'_> {
    // The reach of value i's ball.
    fn reach(self, i: usize) -> u64
        requires { Ranged self.centres.now self.margins.now i }
        ensures { (result ≡ ball_reach (ball_in self.entry.centres.now self.entry.margins.now i)) × (result ≤ M) }
    {
        magnitude(self.centres[i]) + self.margins[i]
    }

    // How far from 0 it stays.
    fn nearness(self, i: usize) -> u64
        requires { RangedAway self.centres.now self.margins.now i }
        ensures { (result ≡ nearness (ball_in self.entry.centres.now self.entry.margins.now i)) × (0 < result) × (result ≤ M) }
    {
        magnitude(self.centres[i]) - self.margins[i]
    }
}

// One instruction on the rows of the first `made` values, unless one of its slopes is over the limit.
pub(crate) fn step(
    scale: u32,
    inputs: usize,
    i: Instruction,
    made: usize,
    balls: Balls,
    slopes: &mut [u64],
) -> Result<(), Refusal>
    requires { Sloping scale inputs i made balls.centres.now balls.margins.now slopes.old }
    ensures { Sloped scale inputs i made balls.entry.centres.now balls.entry.margins.now slopes.old
        slopes.new result }
{
    match i {
        Instruction::Constant(_) | Instruction::Coefficient(_, _) => {
            lay(inputs, made, 0, 0, slopes, |_, _| 0)
        }
        Instruction::Negate(a) => lay(inputs, made, a, a, slopes, |k, _| k),
        Instruction::Add(a, b) | Instruction::Subtract(a, b) => {
            lay(inputs, made, a, b, slopes, |k, l| k + l)
        }
        Instruction::Multiply(a, b) => {
            let x = balls.reach(a);
            let y = balls.reach(b);
            lay(
                inputs,
                made,
                a,
                b,
                slopes,
                |k, l| product_slope(scale, x, y, k, l),
            )
        }
        Instruction::Reciprocal(a) => {
            let w = balls.nearness(a);
            lay(
                inputs,
                made,
                a,
                a,
                slopes,
                |k, _| reciprocal_slope(scale, w, k),
            )
        }
    }
}

// The tests of a card's use: 4, 10 and 20.
ghost use Rattle.std.specs.Prelude.{◌≡◌, ◌≤◌, leb};
ghost use Rattle.std.specs.List.{list_all};
ghost use Rattle.rules.specs.Numbers.{M};
ghost use Rattle.formulas.specs.Readings.{ball_readings};
ghost use Rattle.card_user.specs.Tests.{CountsFit, Few, HasRoom, Holds, IsLow, Small, IsInside, Passed, AllInside};

use crate::Card;
use readings::{GivenBalls, Reading, Readings};
use rounding::LIMIT;
use whole::{below, magnitude};

// Whether there are 0 to 16 inputs and 1 to 16 outputs.
pub(crate) fn counts_fit(inputs: i64, outputs: i64) -> bool
    ensures { CountsFit inputs outputs result }
{
    below(inputs, 17) && below(outputs, 17) && 1 <= magnitude(outputs)
}

// Whether none of these numbers is over M.
fn all_small(numbers: &[u64]) -> bool
    ensures { result ≡ list_all (λ x. leb x M) numbers.now }
{
    numbers.iter().all(|x| *x <= LIMIT)
}

impl Card<'_> {
    // Whether its lists hold all its numbers, and a list of that length its margins.
    pub(crate) fn has_room(self, out: usize) -> bool
        requires { Few self.inputs self.outputs }
        ensures { HasRoom self.entry out result }
    {
        let (m, n) = (self.inputs, self.outputs);
        n <= self.static_margins.len() && n * m <= self.slopes.len() && n <= out
    }

    // Whether none of its numbers is over M.
    pub(crate) fn is_low(self) -> bool
        requires { Holds self }
        ensures { IsLow self.entry result }
    {
        all_small(&self.static_margins[..self.outputs])
            && all_small(&self.slopes[..self.outputs * self.inputs])
    }
}

// Whether a ball, with its own margin, strays no further from the middle than the stray allows.
fn is_inside(domain: Reading, ball: Reading) -> bool
    requires { Small domain ball }
    ensures { IsInside domain ball result }
{
    magnitude(ball.centre - domain.centre) + magnitude(ball.margin) <= magnitude(domain.margin)
}

// Whether each of m balls is inside its reading of the domain.
pub(crate) fn all_inside(domain: GivenBalls, balls: GivenBalls, m: usize) -> bool
    requires { Passed m (ball_readings domain.centres.now domain.margins.now) (ball_readings balls.centres.now balls.margins.now) }
    ensures { AllInside (ball_readings domain.entry.centres.now domain.entry.margins.now)
        (ball_readings balls.entry.centres.now balls.entry.margins.now) result }
{
    for i in 0..m {
        if !is_inside(domain.at(i), balls.at(i)) {
            return false;
        }
    }
    true
}

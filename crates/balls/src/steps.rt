// The instructions on balls.
ghost use Rattle.std.specs.Prelude.{◌≡◌, ◌^◌, ◌≤◌, ◌<◌};
ghost use Rattle.rules.specs.Numbers.{top_scale};
ghost use Rattle.rules.specs.Values.{IsBall, ball_reach};
ghost use Rattle.rules.specs.Reciprocals.{top_reciprocal_scale};
ghost use Rattle.rules.specs.Operation.{Operation};
ghost use Rattle.rules.specs.Steps.{AtEveryScale, within_reach, ball_answer};
ghost use Rattle.rules.specs.Balls.{ball_rule};

use refusals::Refusal;
use rules::Ball;

// b, or refusal 11 where its reach is over the limit.
fn keep(b: Ball) -> Result<Ball, Refusal>
    requires { b.margin < 2 ^ 63 }
    ensures { ball_answer result ≡ within_reach ball_reach b }
{
    let margin = b.margin;
    if rounding::sum_within(whole::magnitude(b.centre), 0, margin) {
        Ok(b)
    } else {
        Err(Refusal::OutOfReach)
    }
}

pub fn constant(c: i64) -> Result<Ball, Refusal>
    ensures { AtEveryScale ball_rule (Operation.constant c) (ball_answer result) }
{
    keep(Ball {
        centre: c,
        margin: 0,
    })
}

pub fn negate(x: Ball) -> Result<Ball, Refusal>
    requires { IsBall x }
    ensures { AtEveryScale ball_rule (Operation.negate x) (ball_answer result) }
{
    keep(Ball {
        centre: -x.centre,
        margin: x.margin,
    })
}

pub fn add(x: Ball, y: Ball) -> Result<Ball, Refusal>
    requires { IsBall x × IsBall y }
    ensures { AtEveryScale ball_rule (Operation.add x y) (ball_answer result) }
{
    keep(Ball {
        centre: x.centre + y.centre,
        margin: x.margin + y.margin,
    })
}

pub fn subtract(x: Ball, y: Ball) -> Result<Ball, Refusal>
    requires { IsBall x × IsBall y }
    ensures { AtEveryScale ball_rule (Operation.subtract x y) (ball_answer result) }
{
    keep(Ball {
        centre: x.centre - y.centre,
        margin: x.margin + y.margin,
    })
}

pub fn multiply(scale: u32, x: Ball, y: Ball) -> Result<Ball, Refusal>
    requires { (scale ≤ top_scale) × IsBall x × IsBall y }
    ensures { ball_answer result ≡ ball_rule scale (Operation.multiply x y) }
{
    let rounded = rounding::product_with_loss(scale, x.centre, y.centre);
    let size_x = whole::magnitude(x.centre);
    let size_y = whole::magnitude(y.centre);
    let far_x = size_x + x.margin;
    let spread = rounding::spread(far_x, y.margin, size_y, x.margin);
    let margin = rounding::up(scale, spread + rounded.lost);
    keep(Ball {
        centre: rounded.centre,
        margin,
    })
}

pub fn coefficient(c: i64, r: u64) -> Result<Ball, Refusal>
    requires { r < 2 ^ 63 }
    ensures { AtEveryScale ball_rule (Operation.coefficient c r) (ball_answer result) }
{
    keep(Ball {
        centre: c,
        margin: r,
    })
}

// Or refusal 17 where the ball holds 0.
pub fn reciprocal(scale: u32, x: Ball) -> Result<Ball, Refusal>
    requires { (scale ≤ top_reciprocal_scale) × IsBall x }
    ensures { ball_answer result ≡ ball_rule scale (Operation.reciprocal x) }
{
    let size = whole::magnitude(x.centre);
    if x.margin < size {
        let inverse = reciprocals::inverse(scale, x.centre);
        let spread = reciprocals::spread_over(scale, x.margin, size - x.margin, size);
        return keep(Ball {
            centre: inverse.centre,
            margin: spread + inverse.missed,
        });
    }
    Err(Refusal::MayBeZero)
}

// The instructions on plain values.
ghost use Rattle.std.specs.Prelude.{◌≡◌, ◌≤◌};
ghost use Rattle.rules.specs.Numbers.{top_scale};
ghost use Rattle.rules.specs.Values.{Allowed, plain_reach};
ghost use Rattle.rules.specs.Reciprocals.{top_reciprocal_scale};
ghost use Rattle.rules.specs.Operation.{Operation};
ghost use Rattle.rules.specs.Steps.{AtEveryScale, within_reach, plain_answer};
ghost use Rattle.rules.specs.Plain.{plain_rule};

use refusals::Refusal;

// x, or refusal 11 where |x| is over the limit.
fn keep(x: i64) -> Result<i64, Refusal>
    ensures { plain_answer result ≡ within_reach plain_reach x }
{
    if rounding::within(whole::magnitude(x), 0, 0) {
        Ok(x)
    } else {
        Err(Refusal::OutOfReach)
    }
}

pub fn constant(c: i64) -> Result<i64, Refusal>
    ensures { AtEveryScale plain_rule (Operation.constant c) (plain_answer result) }
{
    keep(c)
}

pub fn negate(a: i64) -> Result<i64, Refusal>
    requires { Allowed a }
    ensures { AtEveryScale plain_rule (Operation.negate a) (plain_answer result) }
{
    keep(-a)
}

pub fn add(a: i64, b: i64) -> Result<i64, Refusal>
    requires { Allowed a × Allowed b }
    ensures { AtEveryScale plain_rule (Operation.add a b) (plain_answer result) }
{
    keep(a + b)
}

pub fn subtract(a: i64, b: i64) -> Result<i64, Refusal>
    requires { Allowed a × Allowed b }
    ensures { AtEveryScale plain_rule (Operation.subtract a b) (plain_answer result) }
{
    keep(a - b)
}

pub fn multiply(scale: u32, a: i64, b: i64) -> Result<i64, Refusal>
    requires { (scale ≤ top_scale) × Allowed a × Allowed b }
    ensures { plain_answer result ≡ plain_rule scale (Operation.multiply a b) }
{
    keep(rounding::product(scale, a, b))
}

// The floor of T/a + 1/2, or refusal 17 at 0.
pub fn reciprocal(scale: u32, a: i64) -> Result<i64, Refusal>
    requires { (scale ≤ top_reciprocal_scale) × Allowed a }
    ensures { plain_answer result ≡ plain_rule scale (Operation.reciprocal a) }
{
    if whole::magnitude(a) == 0 {
        return Err(Refusal::MayBeZero);
    }
    keep(reciprocals::inverse(scale, a).centre)
}

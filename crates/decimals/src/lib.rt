// Decimals that keep an honest margin: a ball in counts of 10^-d, and a decimal number with a decimal margin as a ball.
#![tactic(auto)]

ghost use Rattle.std.specs.Prelude.{◌≡◌};
ghost use Rattle.decimals.specs.Out.{Countable, out};
ghost use Rattle.decimals.specs.In.{Readable, into};

use numerals::{Decimal, power_of_ten};
use reciprocals::nearest;
use rules::Ball;
use whole::magnitude;

// The ball in counts of 10^-places. What rounding the centre lost goes into the margin before that is rounded up.
pub fn count_of(scale: u32, places: u32, b: Ball) -> Ball
    requires { Countable scale places b }
    ensures { result ≡ out scale places b }
{
    let t = power_of_ten(places);
    let rounded = rounding::product_with_loss(scale, b.centre, t as i64);
    let margin = rounding::up(scale, b.margin * t + rounded.lost);
    Ball {
        centre: rounded.centre,
        margin,
    }
}

// A number, give or take a margin, as a ball at the scale. Its reach may be over M.
pub fn ball_of(scale: u32, number: Decimal<i64>, margin: Decimal<u64>) -> Ball
    requires { Readable scale number margin }
    ensures { result ≡ into scale number margin }
{
    let q = rounding::unit(scale);
    let z = number.count * q as i64;
    let near = nearest(magnitude(z), power_of_ten(number.places), z < 0);
    let wide = (margin.count * q).div_ceil(power_of_ten(margin.places));
    let margin = wide + near.missed;
    Ball {
        centre: near.centre,
        margin,
    }
}

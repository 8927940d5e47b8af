// A ball as a pair of doubles, each exactly so many units of 2^-F.
#![tactic(auto)]

ghost use Rattle.std.specs.Prelude.{◌≡◌, ◌≤◌, pos, nat_abs};
ghost use Rattle.rules.specs.Numbers.{M, top_scale};
ghost use Rattle.doubles.specs.Doubles.{double};

#[derive(Clone, Copy)]
pub struct Pair {
    pub centre: f64,
    pub margin: f64,
}

// A number of at most 53 bits divided by a power of two: nothing is rounded.
pub fn pair_of(scale: u32, centre: i64, margin: u64) -> Pair
    requires { (scale ≤ top_scale) × (nat_abs centre ≤ M) × (margin ≤ M) }
    ensures { (result.centre ≡ double scale centre) × (result.margin ≡ double scale (pos margin)) }
{
    let unit = rounding::unit(scale) as f64;
    Pair {
        centre: centre as f64 / unit,
        margin: margin as f64 / unit,
    }
}

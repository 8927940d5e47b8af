// Quotients: to the nearest whole number, as that of T by a reciprocal's operand, and rounded up, as how far reciprocals
// of numbers near each other are apart. Each division is by a number that is not 0.
#![tactic(auto)]

ghost use Rattle.std.specs.Prelude.{◌≡◌, ◌*◌, ◌^◌, ◌-◌, ◌≤◌, ◌<◌, nat_abs};
ghost use Rattle.rules.specs.Numbers.{M, ceiling};
ghost use Rattle.rules.specs.Reciprocals.{T, top_reciprocal_scale, Inverse, inexact};
ghost use Rattle.reciprocals.specs.Nearest.{Dividing, signed, nearest, unless_divides};

// T.
pub fn square(scale: u32) -> u64
    requires { scale ≤ top_reciprocal_scale }
    ensures { (result ≡ T scale) × (result ≤ 2 ^ 32) }
{
    1u64 << (2 * scale)
}

// T·doubt/(near·size) rounded up.
pub fn spread_over(scale: u32, doubt: u64, near: u64, size: u64) -> u64
    requires { (scale ≤ top_reciprocal_scale) × (doubt < 2 ^ 30) × (0 < near) × (near ≤ size) × (size ≤ M) }
    ensures { (result ≡ ceiling (T scale * doubt) (near * size)) × (result ≤ 2 ^ 62 - 2 ^ 32) }
{
    (square(scale) * doubt).div_ceil(near * size)
}

// The whole number that is nearest to a quotient, and 1 unless it is the quotient.
#[derive(Clone, Copy)]
pub struct Quotient {
    pub centre: i64,
    pub missed: u64,
}

// p/q, below zero if `negative`. A tie goes towards plus infinity, so below zero the size is rounded with a little less.
pub fn nearest(p: u64, q: u64, negative: bool) -> Quotient
    requires { Dividing p q }
    ensures { (result.centre ≡ nearest (signed negative p) q) × (result.missed ≡ unless_divides (signed negative p) q) }
{
    let size = (2 * p + q - u64::from(negative)) / (2 * q);
    let centre = size as i64;
    Quotient {
        centre: if negative { -centre } else { centre },
        missed: u64::from(size * q != p),
    }
}

// The floor of T/a + 1/2, and 1 unless a divides T. For a other than 0.
pub fn inverse(scale: u32, a: i64) -> Quotient
    requires { (scale ≤ top_reciprocal_scale) × (0 < nat_abs a) × (nat_abs a ≤ M) }
    ensures { (result.centre ≡ Inverse scale a) × (result.missed ≡ inexact scale a) }
{
    nearest(square(scale), whole::magnitude(a), a < 0)
}

// Round and Up: each adds a part of a unit, then drops what is below one.
#![tactic(auto)]

ghost use Rattle.std.specs.Prelude.{◌≡◌, ◌+◌, ◌-◌, ◌*◌, ◌/◌, ◌%◌, ◌^◌, ◌≤◌, ◌<◌, leb, pos, nat_abs, ◌+ℤ◌, ◌-ℤ◌, ◌*ℤ◌};
ghost use Rattle.rules.specs.Numbers.{M, Q, h, top_scale, Round, Up};

// M, the largest reach.
pub const LIMIT: u64 = 2147483647;

// Whether a value of this size, stray and margin is within reach.
pub fn within(size: u64, stray: u64, margin: u64) -> bool
    ensures { result ≡ leb (size + stray + margin) M }
{
    if LIMIT < size {
        return false;
    }
    if LIMIT - size < stray {
        return false;
    }
    margin <= LIMIT - size - stray
}

// The same in one test, where the sum fits.
pub fn sum_within(size: u64, stray: u64, margin: u64) -> bool
    requires { size + stray + margin < 2 ^ 64 }
    ensures { result ≡ leb (size + stray + margin) M }
{
    size + stray + margin <= LIMIT
}

// Q, halved so many times, less `less`.
fn part(scale: u32, halvings: u32, less: u64) -> u64
    requires { (scale ≤ top_scale) × (halvings ≤ 1) × (less ≤ Q scale / 2 ^ halvings) }
    ensures { result ≡ Q scale / 2 ^ halvings - less }
{
    ((1u64 << scale) >> halvings) - less
}

// Q.
pub fn unit(scale: u32) -> u64
    requires { scale ≤ top_scale }
    ensures { result ≡ Q scale }
{
    part(scale, 0, 0)
}

// h.
pub fn half(scale: u32) -> u64
    requires { scale ≤ top_scale }
    ensures { (result ≡ h scale) × (result ≤ 2 ^ 30) }
{
    part(scale, 1, 0)
}

// What p has over a multiple of Q: its low bits.
pub fn over_units(scale: u32, p: u64) -> u64
    requires { scale ≤ top_scale }
    ensures { (result ≡ p % Q scale) × (result < 2 ^ 31) }
{
    p & part(scale, 0, 1)
}

// Half a unit goes on before the floor, so a tie goes towards plus infinity.
fn round(scale: u32, p: i64) -> i64
    requires { (scale ≤ top_scale) × (nat_abs p ≤ M * M) }
    ensures { result ≡ Round scale p }
{
    (p + part(scale, 1, 0) as i64) >> scale
}

// What the floor drops when p is rounded: the remainder of p + h by Q, from 0 to Q - 1 also where p is negative. In
// two's complement that is the low bits of p + h.
fn remainder(scale: u32, p: i64) -> u64
    requires { (scale ≤ top_scale) × (nat_abs p ≤ M * M) }
    ensures { pos result ≡ p +ℤ pos (h scale) -ℤ Round scale p *ℤ pos (Q scale) }
{
    let q = p + half(scale) as i64;
    (q & (unit(scale) as i64 - 1)) as u64
}

// |x − y|.
fn apart(x: u64, y: u64) -> u64
    ensures { result ≡ nat_abs (pos x -ℤ pos y) }
{
    if x < y {
        return y - x;
    }
    x - y
}

// The largest remainder goes on before the floor, so only a whole number of units stays as it is.
pub fn up(scale: u32, p: u64) -> u64
    requires { (scale ≤ top_scale) × (p ≤ M * M + 2 ^ top_scale) }
    ensures { (result ≡ Up scale p) × (result < 2 ^ 62) }
{
    (p + part(scale, 0, 1)) >> scale
}

// Round(a·b).
pub fn product(scale: u32, a: i64, b: i64) -> i64
    requires { (scale ≤ top_scale) × (nat_abs a ≤ M) × (nat_abs b ≤ M) }
    ensures { result ≡ Round scale (a *ℤ b) }
{
    round(scale, a * b)
}

// c = Round(a·b), and what rounding lost: |a·b − c·Q|.
#[derive(Clone, Copy)]
pub struct Rounded {
    pub centre: i64,
    pub lost: u64,
}

pub fn product_with_loss(scale: u32, a: i64, b: i64) -> Rounded
    requires { (scale ≤ top_scale) × (nat_abs a ≤ M) × (nat_abs b ≤ M) }
    ensures { (result.centre ≡ Round scale (a *ℤ b))
        × (result.lost ≡ nat_abs (a *ℤ b -ℤ Round scale (a *ℤ b) *ℤ pos (Q scale))) × (result.lost ≤ h scale) }
{
    let p = a * b;
    let centre = round(scale, p);
    let lost = apart(remainder(scale, p), half(scale));
    Rounded { centre, lost }
}

// p·s + q·r, which stays below M² because r is a part of p: the doubt of a product before it is rounded up.
pub fn spread(p: u64, s: u64, q: u64, r: u64) -> u64
    requires { (p ≤ M) × (q + s ≤ M) × (r ≤ p) }
    ensures { (result ≡ p * s + q * r) × (result ≤ M * M) }
{
    p * s + q * r
}

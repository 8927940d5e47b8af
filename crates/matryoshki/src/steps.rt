// The instructions on matryoshki.
ghost use Rattle.std.specs.Prelude.{◌≡◌, ◌+◌, ◌^◌, ◌≤◌, ◌<◌};
ghost use Rattle.rules.specs.Numbers.{top_scale};
ghost use Rattle.rules.specs.Values.{IsMatryoshka, matryoshka_reach};
ghost use Rattle.rules.specs.Reciprocals.{top_reciprocal_scale};
ghost use Rattle.rules.specs.Operation.{Operation};
ghost use Rattle.rules.specs.Steps.{AtEveryScale, within_reach, matryoshka_answer};
ghost use Rattle.rules.specs.Matryoshki.{is_whole, rounding_doubt, matryoshka_rule};

use refusals::Refusal;
use rules::Matryoshka;

// m, or refusal 11 where its reach is over the limit.
fn keep(m: Matryoshka) -> Result<Matryoshka, Refusal>
    requires { m.stray + m.margin < 2 ^ 63 }
    ensures { matryoshka_answer result ≡ within_reach matryoshka_reach m }
{
    let stray = m.stray;
    let margin = m.margin;
    if rounding::sum_within(whole::magnitude(m.middle), stray, margin) {
        Ok(m)
    } else {
        Err(Refusal::OutOfReach)
    }
}

pub fn constant(c: i64) -> Result<Matryoshka, Refusal>
    ensures { AtEveryScale matryoshka_rule (Operation.constant c) (matryoshka_answer result) }
{
    keep(Matryoshka {
        middle: c,
        stray: 0,
        margin: 0,
    })
}

pub fn negate(x: Matryoshka) -> Result<Matryoshka, Refusal>
    requires { IsMatryoshka x }
    ensures { AtEveryScale matryoshka_rule (Operation.negate x) (matryoshka_answer result) }
{
    keep(Matryoshka {
        middle: -x.middle,
        stray: x.stray,
        margin: x.margin,
    })
}

pub fn add(x: Matryoshka, y: Matryoshka) -> Result<Matryoshka, Refusal>
    requires { IsMatryoshka x × IsMatryoshka y }
    ensures { AtEveryScale matryoshka_rule (Operation.add x y) (matryoshka_answer result) }
{
    keep(Matryoshka {
        middle: x.middle + y.middle,
        stray: x.stray + y.stray,
        margin: x.margin + y.margin,
    })
}

pub fn subtract(x: Matryoshka, y: Matryoshka) -> Result<Matryoshka, Refusal>
    requires { IsMatryoshka x × IsMatryoshka y }
    ensures { AtEveryScale matryoshka_rule (Operation.subtract x y) (matryoshka_answer result) }
{
    keep(Matryoshka {
        middle: x.middle - y.middle,
        stray: x.stray + y.stray,
        margin: x.margin + y.margin,
    })
}

// Whether a factor has stray 0 and a middle that is a multiple of Q, in one test of a sum.
fn is_whole(scale: u32, x: Matryoshka) -> bool
    requires { (scale ≤ top_scale) × IsMatryoshka x }
    ensures { result ≡ is_whole scale x }
{
    x.stray + rounding::over_units(scale, whole::magnitude(x.middle)) == 0
}

// What rounding a product may lose: nothing where a factor is whole.
fn rounding_doubt(scale: u32, x: Matryoshka, y: Matryoshka) -> u64
    requires { (scale ≤ top_scale) × IsMatryoshka x × IsMatryoshka y }
    ensures { (result ≡ rounding_doubt scale x y) × (result ≤ 2 ^ 30) }
{
    // Where both factors stray, the usual case, one test is enough.
    if (x.stray == 0) | (y.stray == 0) {
        if is_whole(scale, x) | is_whole(scale, y) {
            return 0;
        }
        return rounding::half(scale);
    }
    rounding::half(scale)
}

pub fn multiply(scale: u32, x: Matryoshka, y: Matryoshka) -> Result<Matryoshka, Refusal>
    requires { (scale ≤ top_scale) × IsMatryoshka x × IsMatryoshka y }
    ensures { matryoshka_answer result ≡ matryoshka_rule scale (Operation.multiply x y) }
{
    let middle = rounding::product(scale, x.middle, y.middle);
    let far_x = whole::magnitude(x.middle) + x.stray;
    let size_y = whole::magnitude(y.middle);
    let strays = rounding::spread(far_x, y.stray, size_y, x.stray);
    let doubts = rounding::spread(far_x + x.margin, y.margin, size_y + y.stray, x.margin);
    let stray = rounding::up(scale, strays);
    let margin = rounding::up(scale, doubts + rounding_doubt(scale, x, y));
    keep(Matryoshka {
        middle,
        stray,
        margin,
    })
}

pub fn coefficient(c: i64, r: u64) -> Result<Matryoshka, Refusal>
    requires { r < 2 ^ 63 }
    ensures { AtEveryScale matryoshka_rule (Operation.coefficient c r) (matryoshka_answer result) }
{
    // The same centre is computed for every reading, so all the doubt is margin.
    let stray = 0;
    keep(Matryoshka {
        middle: c,
        stray,
        margin: r,
    })
}

// Or refusal 17 where a ball that is covered may hold 0.
pub fn reciprocal(scale: u32, x: Matryoshka) -> Result<Matryoshka, Refusal>
    requires { (scale ≤ top_reciprocal_scale) × IsMatryoshka x }
    ensures { matryoshka_answer result ≡ matryoshka_rule scale (Operation.reciprocal x) }
{
    let size = whole::magnitude(x.middle);
    if x.stray + x.margin < size {
        let inverse = reciprocals::inverse(scale, x.middle);
        let near = size - x.stray;
        let stray = reciprocals::spread_over(scale, x.stray, near, size);
        let margin = reciprocals::spread_over(scale, x.margin, near - x.margin, near);
        return keep(Matryoshka {
            middle: inverse.centre,
            stray,
            margin: margin + 1,
        });
    }
    Err(Refusal::MayBeZero)
}

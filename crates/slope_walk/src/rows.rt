// A row of slopes, laid behind those before it; each is told apart from one over the limit before it is written.
ghost use Rattle.std.specs.Prelude.{◌≡◌, ℕ, ◌+◌, ◌*◌, ◌≤◌, ◌<◌};
ghost use Rattle.lists.specs.Over.{over};
ghost use Rattle.rules.specs.Numbers.{M, top_scale, Up};
ghost use Rattle.rules.specs.Reciprocals.{top_reciprocal_scale};
ghost use Rattle.cards.specs.Slopes.{all_inputs, product_slope, reciprocal_slope};
ghost use Rattle.cards.specs.Card.{flat};
ghost use Rattle.slope_walk.specs.Grading.{TwoRows, LaidBy, Startable};

use reciprocals::square;
use refusals::Refusal;
use rounding::{LIMIT, unit};

// Up, where two products are added: what goes on before the floor still fits.
fn up_of_two(scale: u32, p: u64) -> u64
    requires { (scale ≤ top_scale) × (p ≤ 2 * (M * M)) }
    ensures { result ≡ Up scale p }
{
    (p + (unit(scale) - 1)) >> scale
}

// The slope of a product at one input: x·l + y·k, in units.
pub(crate) fn product_slope(scale: u32, x: u64, y: u64, k: u64, l: u64) -> u64
    requires { (scale ≤ top_scale) × (x ≤ M) × (y ≤ M) × (k ≤ M) × (l ≤ M) }
    ensures { result ≡ product_slope scale x y k l }
{
    up_of_two(scale, x * l + y * k)
}

// The slope of a reciprocal at one input: T·l over w·w, rounded up.
pub(crate) fn reciprocal_slope(scale: u32, w: u64, l: u64) -> u64
    requires { (scale ≤ top_reciprocal_scale) × (0 < w) × (w ≤ M) × (l ≤ M) }
    ensures { result ≡ reciprocal_slope scale w l }
{
    (square(scale) * l).div_ceil(w * w)
}

// Value `made`'s row, from those of values `a` and `b`.
pub(crate) fn lay<F: Fn(u64, u64) -> u64>(
    inputs: usize,
    made: usize,
    a: usize,
    b: usize,
    slopes: &mut [u64],
    slope: F,
) -> Result<(), Refusal>
    requires rows { TwoRows inputs made a b slopes.old }
    requires each { (k l : ℕ) → k ≤ M → l ≤ M → F.pre slope k l }
    ensures { LaidBy (λ k l t. F.post slope k l t) inputs made a b slopes.old slopes.new result }
{
    for i in 0..inputs {
        let t = slope(slopes[a * inputs + i], slopes[b * inputs + i]);
        if LIMIT < t {
            return Err(Refusal::OutOfReach);
        }
        slopes[made * inputs + i] = t;
    }
    Ok(())
}

// The inputs' own rows: Q at the input itself, 0 at the others.
pub fn lay_inputs(scale: u32, inputs: usize, slopes: &mut [u64])
    requires { Startable scale inputs slopes.old }
    ensures { slopes.new ≡ over (flat (all_inputs scale inputs)) slopes.old }
{
    let q = unit(scale);
    for j in 0..inputs * inputs {
        slopes[j] = if j / inputs == j % inputs { q } else { 0 };
    }
}

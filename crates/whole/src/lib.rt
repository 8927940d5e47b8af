// Signed numbers: the size of one, whether one is below a limit, and (in proofs/) the laws of ℤ that every other crate cites.
#![tactic(auto)]

ghost use Rattle.std.specs.Prelude.{◌≡◌, nat_abs};
ghost use Rattle.whole.specs.Limits.{is_below};

// |x|, also at −2^63, whose size no i64 holds.
pub fn magnitude(x: i64) -> u64
    ensures { result ≡ nat_abs x }
{
    x.unsigned_abs()
}

// Whether a number is from 0 on and below `limit`.
pub fn below(z: i64, limit: u64) -> bool
    ensures { result ≡ is_below limit z }
{
    0 <= z && magnitude(z) < limit
}

// Lists that a caller lends, written from the front: a list copied, or the sizes of one.
#![tactic(auto)]

ghost use Rattle.std.specs.Prelude.{◌≡◌, map, ◌≤◌, nat_abs, length};
ghost use Rattle.lists.specs.Over.{over, least};

use whole::magnitude;

// All of `from`, to the front of `to`.
pub fn copy_numbers(from: &[i64], to: &mut [i64])
    requires { length from.now ≤ length to.old }
    ensures { to.new ≡ over from.now to.old }
{
    to[..from.len()].copy_from_slice(from);
}

// The size of each of `from`, to the front of `to`.
pub fn copy_sizes(from: &[i64], to: &mut [u64])
    requires { length from.now ≤ length to.old }
    ensures { to.new ≡ over (map nat_abs from.now) to.old }
{
    for (i, v) in from.iter().enumerate() {
        to[i] = magnitude(*v);
    }
}

// The smaller of two lengths: how many places both lists have.
pub fn least_of(a: usize, b: usize) -> usize
    ensures { result ≡ least a b }
{
    a.min(b)
}

pub fn least_of_three(a: usize, b: usize, c: usize) -> usize
    ensures { result ≡ least a (least b c) }
{
    least_of(a, least_of(b, c))
}

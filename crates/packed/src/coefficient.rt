// A constant with a margin: one load does not hold both fields, and the margin comes out of the eight bytes up to its
// end.
ghost use Rattle.packed.specs.ReaderAnswers.{WithMargin, IsCentred};

use crate::loaded::{CODE, CONSTANT, Loaded};
use crate::making::signed;
use bits::ending;

#[derive(Clone, Copy)]
pub struct Centred {
    pub centre: i64,
    pub margin: u64,
}

// `l` stands before the code.
pub fn gather(s: &[u8], l: Loaded) -> Centred
    requires { WithMargin s.now l }
    ensures { IsCentred s.now l result }
{
    let code = l.take::<CODE>();
    let centre = code.rest.take::<CONSTANT>();
    Centred {
        centre: signed(centre.field),
        margin: ending(s, l.at + 66, 31),
    }
}

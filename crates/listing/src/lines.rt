// The line of one output.
ghost use Rattle.std.specs.Prelude.{ℕ, ◌+◌, ◌≤◌, List, length};
ghost use Rattle.lists.specs.Written.{Wrote};
ghost use Rattle.listing.specs.OutputLines.{plain_fields, ball_fields, matryoshka_fields, line};
ghost use Rattle.listing.specs.Short.{plain_short, ball_short, matryoshka_short};

use printing::bytes::put;
use printing::numbers::{put_marked, put_marked_signed};
use rules::{Ball, Matryoshka};

// A value's fields, each behind a space.
pub(crate) trait Fields {
    ghost fields: { Self → List ℕ };

    fn put(self, out: &mut [u8], at: usize) -> usize
        requires { at + 64 ≤ length out.old }
        ensures { Wrote (fields self) at out.old out.new result };

    ghost short: { (v : Self) → length (fields v) ≤ 64 };
}

impl Fields for i64 {
    ghost fields = { plain_fields };

    ghost short = { plain_short };

    fn put(self, out: &mut [u8], at: usize) -> usize {
        put_marked_signed(b' ', self, out, at)
    }
}

impl Fields for Ball {
    ghost fields = { ball_fields };

    ghost short = { ball_short };

    fn put(self, out: &mut [u8], at: usize) -> usize {
        let next = put_marked_signed(b' ', self.centre, out, at);
        put_marked(b' ', self.margin, out, next)
    }
}

impl Fields for Matryoshka {
    ghost fields = { matryoshka_fields };

    ghost short = { matryoshka_short };

    fn put(self, out: &mut [u8], at: usize) -> usize {
        let next = put_marked_signed(b' ', self.middle, out, at);
        let strayed = put_marked(b' ', self.stray, out, next);
        put_marked(b' ', self.margin, out, strayed)
    }
}

// `y` and the index, the fields, the end of the line.
pub(crate) fn put_line<T: Fields>(i: usize, value: T, out: &mut [u8], at: usize) -> usize
    requires { at + 90 ≤ length out.old }
    ensures { Wrote (line T.fields i value) at out.old out.new result }
{
    let named = put_marked(b'y', i as u64, out, at);
    let shown = value.put(out, named);
    put(b'\n', out, shown)
}

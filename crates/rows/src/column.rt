// One number of each reading line.
ghost use Rattle.std.specs.Prelude.{◌+◌, ◌≤◌, ◌<◌, length};
ghost use Rattle.parsing.specs.ParsingAnswers.{Gathers};
ghost use Rattle.rows.specs.Rows.{column_of, column_front};

use crate::row;
use parsing::finding::halves;

// Number j of each line, k on each, to the front of `out`.
pub fn read(s: &[u8], k: usize, j: usize, out: &mut [i64]) -> Option<usize>
    requires { (j < k) × (length s.now ≤ length out.old + length out.old) }
    ensures { Gathers (column_of k j s.now) (column_front k j s.now)
        out.old out.new result }
{
    let mut rest = s;
    let mut n = 0;
    while !rest.is_empty() {
        let (line, more) = halves(rest, b'\n')?;
        out[n] = row::read(line, k, j)?;
        n += 1;
        rest = more;
    }
    Some(n)
}

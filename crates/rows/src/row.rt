// A reading line: numbers with one space between.
ghost use Rattle.std.specs.Prelude.{◌≡◌, ◌<◌};
ghost use Rattle.rows.specs.Rows.{row, number_of};

use parsing::finding::halves;

// Number j of a line of k numbers; all of them must be numbers.
pub(crate) fn read(line: &[u8], k: usize, j: usize) -> Option<i64>
    requires { j < k }
    ensures { result ≡ number_of j (row k line.now) }
{
    if k == 1 {
        return numbers::read(line);
    }
    let (front, rest) = halves(line, b' ')?;
    let first = numbers::read(front)?;
    let later = read(rest, k - 1, j.saturating_sub(1))?;
    Some(if j == 0 { first } else { later })
}

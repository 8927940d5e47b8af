// Reading lines of which two columns are read: a ball job, or an admit job with a third.
#![tactic(auto)]

ghost use Rattle.lists.specs.Written.{Wrote};
ghost use Rattle.columns_text.specs.JobLines.{lines_text};
ghost use Rattle.columns_text.specs.ColumnsRead.{SecondRead};

use refusals::Refusal;
use rows::column;
use telling::put_refused;

// Two columns are read, and there are two or more.
pub fn by_second(
    k: usize,
    formula: &[u8],
    first: &[i64],
    second: &[i64],
    lines: &[u8],
    out: &mut [u8],
) -> usize
    requires { SecondRead k lines.now first.now second.now out.old }
    ensures { Wrote (lines_text k formula.now lines.now)
        0 out.old out.new result }
{
    if k == 2 {
        return ball_text::answer(formula, first, second, out);
    }
    let mut third = [0; 8192];
    let Some(n) = column::read(lines, k, 2, &mut third) else {
        return put_refused(Refusal::AnotherForm.into(), out);
    };
    admit_text::answer(formula, first, second, &third[..n], out)
}

// The three jobs on reading lines, column by column: a job takes as many columns as there are numbers on its lines.
#![tactic(auto)]

ghost use Rattle.lists.specs.Written.{Wrote};
ghost use Rattle.columns_text.specs.JobLines.{lines_text};
ghost use Rattle.columns_text.specs.ColumnsRead.{Lined};

use columns_text::by_second;
use refusals::Refusal;
use rows::column;
use telling::put_refused;

// What is printed for the bytes of a formula and reading lines of k numbers.
pub fn by_lines(k: usize, formula: &[u8], lines: &[u8], out: &mut [u8]) -> usize
    requires { Lined 1 k lines.now out.old }
    ensures { Wrote (lines_text k formula.now lines.now)
        0 out.old out.new result }
{
    let mut first = [0; 8192];
    let Some(n) = column::read(lines, k, 0, &mut first) else {
        return put_refused(Refusal::AnotherForm.into(), out);
    };
    if k == 1 {
        return plain_text::answer(formula, &first[..n], out);
    }
    let mut second = [0; 8192];
    let Some(m) = column::read(lines, k, 1, &mut second) else {
        return put_refused(Refusal::AnotherForm.into(), out);
    };
    by_second(k, formula, &first[..n], &second[..m], lines, out)
}

// The plain job, told.
// The run, the first line and the lines of outputs are shared; what is here is this job's own lists.
#![tactic(auto)]

ghost use Rattle.std.specs.Prelude.{◌≤◌, length};
ghost use Rattle.formulas.specs.Kinds.{plain_kind};
ghost use Rattle.lists.specs.Written.{Wrote};
ghost use Rattle.listing.specs.OutputLines.{plain_fields};
ghost use Rattle.telling.specs.Program.{kind_text};

use listing::outputs::put_plain;
use plain_run::run;
use telling::{count_of, put_headline};

// What the program prints of the plain job on these readings, to the front of `out`.
pub fn answer(formula: &[u8], readings: &[i64], out: &mut [u8]) -> usize
    requires { 2048 ≤ length out.old }
    ensures { Wrote (kind_text plain_kind plain_fields formula.now readings.now)
        0 out.old out.new result }
{
    let mut work = [0; 528];
    let mut output = [0; 16];
    let reply = run(formula, readings, &mut work, &mut output);
    let at = put_headline(reply, out);
    put_plain(&output, count_of(reply), out, at)
}

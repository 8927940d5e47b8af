// The ball job, told.
// The run, the first line and the lines of outputs are shared; what is here is this job's own lists.
#![tactic(auto)]

ghost use Rattle.std.specs.Prelude.{◌≤◌, length};
ghost use Rattle.formulas.specs.Readings.{ball_readings};
ghost use Rattle.formulas.specs.Kinds.{ball_kind};
ghost use Rattle.lists.specs.Written.{Wrote};
ghost use Rattle.listing.specs.OutputLines.{ball_fields};
ghost use Rattle.telling.specs.Program.{kind_text};

use ball_run::run;
use listing::outputs::put_balls;
use telling::{count_of, put_headline};

// What the program prints of the ball job on these readings with their margins, to the front of `out`.
pub fn answer(formula: &[u8], centres: &[i64], margins: &[i64], out: &mut [u8]) -> usize
    requires { 2048 ≤ length out.old }
    ensures { Wrote (kind_text ball_kind ball_fields formula.now
        (ball_readings centres.now margins.now)) 0 out.old out.new result }
{
    let mut work_centres = [0; 528];
    let mut work_margins = [0; 528];
    let mut output_centres = [0; 16];
    let mut output_margins = [0; 16];
    let reply = run(
        formula,
        centres,
        margins,
        &mut work_centres,
        &mut work_margins,
        &mut output_centres,
        &mut output_margins,
    );
    let at = put_headline(reply, out);
    put_balls(&output_centres, &output_margins, count_of(reply), out, at)
}

// The ball job: each reading with its margin in, each figure with its margin out, or the numbered refusal. Nothing has
// to be checked first.
#![tactic(auto)]

ghost use Rattle.rules.specs.Lists.{ball_lists};
ghost use Rattle.formulas.specs.Readings.{ball_readings};
ghost use Rattle.formulas.specs.Kinds.{ball_kind};
ghost use Rattle.formulas.specs.Job.{lent, Kept};
ghost use Rattle.packed.specs.Meaning.{formula};

use ball_walk::BallJob;
use refusals::Refused;

// The outputs with their margins for these readings with theirs, or the refusal.
pub fn run(
    s: &[u8],
    centres: &[i64],
    margins: &[i64],
    work_centres: &mut [i64],
    work_margins: &mut [u64],
    output_centres: &mut [i64],
    output_margins: &mut [u64],
) -> Result<usize, Refused>
    ensures { Kept ball_kind (formula s.now)
        (ball_readings centres.now margins.now)
        (lent ball_kind (ball_lists work_centres.old work_margins.old)
        (ball_lists output_centres.old output_margins.old))
        (lent ball_kind (ball_lists work_centres.new work_margins.new)
        (ball_lists output_centres.new output_margins.new)) result }
{
    let mut job = BallJob {
        centres,
        margins,
        work_centres,
        work_margins,
        output_centres,
        output_margins,
    };
    running::run(s, &mut job)
}

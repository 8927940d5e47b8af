// The ball job for C.
ghost use Rattle.rules.specs.Lists.{ball_lists};
ghost use Rattle.formulas.specs.Readings.{ball_readings};
ghost use Rattle.formulas.specs.Kinds.{ball_kind};
ghost use Rattle.formulas.specs.Job.{lent};
ghost use Rattle.packed.specs.Meaning.{formula};
ghost use Rattle.replies.specs.Doors.{Door};

use replies::{MarginsReply, replied};

pub fn margins_ball(
    bytes: &[u8],
    centres: &[i64],
    margins: &[i64],
    work_centres: &mut [i64],
    work_margins: &mut [u64],
    output_centres: &mut [i64],
    output_margins: &mut [u64],
) -> MarginsReply
    ensures { Door ball_kind (formula bytes.now)
        (ball_readings centres.now margins.now)
        (lent ball_kind (ball_lists work_centres.old work_margins.old)
        (ball_lists output_centres.old output_margins.old))
        (lent ball_kind (ball_lists work_centres.new work_margins.new)
        (ball_lists output_centres.new output_margins.new)) result }
{
    replied(ball_run::run(
        bytes,
        centres,
        margins,
        work_centres,
        work_margins,
        output_centres,
        output_margins,
    ))
}

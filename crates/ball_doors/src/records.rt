// The ball job for C over records, centre beside margin.
ghost use Rattle.std.specs.Prelude.{map, take};
ghost use Rattle.rules.specs.Lists.{ball_lists};
ghost use Rattle.formulas.specs.Readings.{ball_readings};
ghost use Rattle.formulas.specs.Kinds.{ball_kind};
ghost use Rattle.formulas.specs.Job.{lent};
ghost use Rattle.packed.specs.Meaning.{formula};
ghost use Rattle.columns.specs.Records.{WithinColumns, centre_of, margin_of};
ghost use Rattle.replies.specs.Doors.{Door};

use crate::ball_door::margins_ball;
use columns::{Columns, MarginsBall, columns_of};
use replies::MarginsReply;

fn run(
    bytes: &[u8],
    l: Columns,
    work_centres: &mut [i64],
    work_margins: &mut [u64],
    output_centres: &mut [i64],
    output_margins: &mut [u64],
) -> MarginsReply
    requires { WithinColumns l }
    ensures { Door ball_kind (formula bytes.now)
        (ball_readings (take l.count l.centres) (take l.count l.margins))
        (lent ball_kind (ball_lists work_centres.old work_margins.old)
        (ball_lists output_centres.old output_margins.old))
        (lent ball_kind (ball_lists work_centres.new work_margins.new)
        (ball_lists output_centres.new output_margins.new)) result }
{
    let n = l.count;
    let centres = l.centres;
    let margins = l.margins;
    margins_ball(
        bytes,
        &centres[..n],
        &margins[..n],
        work_centres,
        work_margins,
        output_centres,
        output_margins,
    )
}

// As `margins_ball` over the records' centres and their margins.
pub fn margins_ball_records(
    bytes: &[u8],
    readings: &[MarginsBall],
    work_centres: &mut [i64],
    work_margins: &mut [u64],
    output_centres: &mut [i64],
    output_margins: &mut [u64],
) -> MarginsReply
    ensures { Door ball_kind (formula bytes.now)
        (ball_readings (map centre_of readings.now) (map margin_of readings.now))
        (lent ball_kind (ball_lists work_centres.old work_margins.old)
        (ball_lists output_centres.old output_margins.old))
        (lent ball_kind (ball_lists work_centres.new work_margins.new)
        (ball_lists output_centres.new output_margins.new)) result }
{
    let l = columns_of(readings);
    run(
        bytes,
        l,
        work_centres,
        work_margins,
        output_centres,
        output_margins,
    )
}

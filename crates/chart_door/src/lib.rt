// The ball job with its figures as doubles, for C.
#![tactic(auto)]

ghost use Rattle.rules.specs.Lists.{ball_lists};
ghost use Rattle.formulas.specs.Readings.{ball_readings};
ghost use Rattle.charts.specs.Charts.{chart_lists, chart_lent};
ghost use Rattle.chart_door.specs.ChartDoors.{ChartDoor};

use replies::{MarginsReply, replied};

pub fn margins_ball_doubles(
    bytes: &[u8],
    centres: &[i64],
    margins: &[i64],
    work_centres: &mut [i64],
    work_margins: &mut [u64],
    output_centres: &mut [f64],
    output_margins: &mut [f64],
) -> MarginsReply
    ensures { ChartDoor bytes.now (ball_readings centres.now margins.now)
        (chart_lent (ball_lists work_centres.old work_margins.old)
        (chart_lists output_centres.old output_margins.old))
        (chart_lent (ball_lists work_centres.new work_margins.new)
        (chart_lists output_centres.new output_margins.new)) result }
{
    replied(charts::run(
        bytes,
        centres,
        margins,
        work_centres,
        work_margins,
        output_centres,
        output_margins,
    ))
}

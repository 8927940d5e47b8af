// The ball job with its figures as doubles, for a page that draws them. Nothing has to be checked first.
#![tactic(auto)]

ghost use Rattle.rules.specs.Lists.{ball_lists};
ghost use Rattle.formulas.specs.Readings.{ball_readings};
ghost use Rattle.charts.specs.Charts.{chart_lists, chart_lent, Drawable, Draws, Charted};

use ball_walk::BallJob;
use doubles::pair_of;
use lists::least_of;
use refusals::Refused;
use running::{carry_out, ready};
use walks::Job;

// The balls at the front of two lists, as pairs of doubles to the front of two others.
fn draw(
    scale: u32,
    count: usize,
    centres: &[i64],
    margins: &[u64],
    chart_centres: &mut [f64],
    chart_margins: &mut [f64],
)
    requires { Drawable scale count (ball_lists centres.now margins.now)
        (chart_lists chart_centres.old chart_margins.old) }
    ensures { Draws scale count (ball_lists centres.now margins.now)
        (chart_lists chart_centres.old chart_margins.old)
        (chart_lists chart_centres.new chart_margins.new) }
{
    for k in 0..count {
        let p = pair_of(scale, centres[k], margins[k]);
        chart_centres[k] = p.centre;
        chart_margins[k] = p.margin;
    }
}

// The outputs with their margins as doubles for these readings with theirs, or the refusal of the ball job.
pub fn run(
    s: &[u8],
    centres: &[i64],
    margins: &[i64],
    work_centres: &mut [i64],
    work_margins: &mut [u64],
    chart_centres: &mut [f64],
    chart_margins: &mut [f64],
) -> Result<usize, Refused>
    ensures { Charted s.now (ball_readings centres.now margins.now)
        (chart_lent (ball_lists work_centres.old work_margins.old)
        (chart_lists chart_centres.old chart_margins.old))
        (chart_lent (ball_lists work_centres.new work_margins.new)
        (chart_lists chart_centres.new chart_margins.new)) result }
{
    let mut output_centres = [0; 16];
    let mut output_margins = [0; 16];
    let mut job = BallJob {
        centres,
        margins,
        work_centres,
        work_margins,
        output_centres: &mut output_centres,
        output_margins: &mut output_margins,
    };
    let output = least_of(chart_centres.len(), chart_margins.len());
    let h = ready(s, &job, job.room(), output)?;
    let n = carry_out(s, h, &mut job)?;
    draw(
        h.scale,
        n,
        &output_centres,
        &output_margins,
        chart_centres,
        chart_margins,
    );
    Ok(n)
}

// The slopes of all values over a domain that fits: the ball run over (middle, stray) first.
ghost use Rattle.rules.specs.Lists.{ball_lists};
ghost use Rattle.formulas.specs.Readings.{ball_readings};
ghost use Rattle.formulas.specs.Kinds.{ball_kind};
ghost use Rattle.card_maker.specs.Parts.{Runnable, Runs, Slopable, Slopes};

use crate::working::run;
use ball_walk::BallJob;
use bits::Cursor;
use formulas::Header;
use refusals::Refused;
use slope_walk::rows::lay_inputs;
use slope_walk::walking::grade;

// The ball run.
fn range(
    s: &[u8],
    h: Header,
    middles: &[i64],
    strays: &[i64],
    work_centres: &mut [i64],
    work_margins: &mut [u64],
) -> Result<Cursor, Refused>
    requires { Runnable ball_kind s.now h (ball_readings middles.now strays.now) (ball_lists work_centres.old work_margins.old) }
    ensures { Runs ball_kind s.now h (ball_readings middles.now strays.now) (ball_lists work_centres.old work_margins.old)
        (ball_lists work_centres.new work_margins.new) result }
{
    let mut job = BallJob {
        centres: middles,
        margins: strays,
        work_centres,
        work_margins,
        output_centres: &mut [],
        output_margins: &mut [],
    };
    run(s, h, &mut job)
}

// The balls are not kept.
pub(crate) fn grade_all(
    s: &[u8],
    h: Header,
    middles: &[i64],
    strays: &[i64],
    slopes: &mut [u64],
) -> Result<Cursor, Refused>
    requires { Slopable s.now h middles.now strays.now slopes.old }
    ensures { Slopes s.now h middles.now strays.now
        slopes.old slopes.new result }
{
    let mut centres = [0i64; 528];
    let mut margins = [0u64; 528];
    range(s, h, middles, strays, &mut centres, &mut margins)?;
    lay_inputs(h.scale, h.inputs, slopes);
    grade(s, h, &centres, &margins, slopes)
}

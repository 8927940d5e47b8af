// The check and the ball job, over two lists and over records, under their C names: what `ball_doors` promises.
#![tactic(auto)]

ghost use Rattle.rules.specs.Lists.{ball_lists};
ghost use Rattle.formulas.specs.Readings.{ball_readings};
ghost use Rattle.formulas.specs.Kinds.{ball_kind};
ghost use Rattle.formulas.specs.Job.{lent};
ghost use Rattle.packed.specs.Meaning.{formula, checked};
ghost use Rattle.replies.specs.Doors.{Door, margins_formula};
ghost use Rattle.std.specs.Prelude.{◌≡◌, map};
ghost use Rattle.columns.specs.Records.{centre_of, margin_of};

use columns::MarginsBall;
use replies::{MarginsFormula, MarginsReply};

#[unsafe(no_mangle)]
pub extern "C" fn margins_ball(
    bytes: &[u8],
    centres: &[i64],
    margins: &[i64],
    work_centres: &mut [i64],
    work_margins: &mut [u64],
    output_centres: &mut [i64],
    output_margins: &mut [u64],
) -> MarginsReply
    ensures { Door ball_kind (formula bytes.now)
        (ball_readings centres.now margins.now)
        (lent ball_kind (ball_lists work_centres.old work_margins.old)
        (ball_lists output_centres.old output_margins.old))
        (lent ball_kind (ball_lists work_centres.new work_margins.new)
        (ball_lists output_centres.new output_margins.new)) result }
{
    ball_doors::ball_door::margins_ball(
        bytes,
        centres,
        margins,
        work_centres,
        work_margins,
        output_centres,
        output_margins,
    )
}

#[unsafe(no_mangle)]
pub extern "C" fn margins_check(bytes: &[u8]) -> MarginsFormula
    ensures { result ≡ margins_formula (checked bytes.now) }
{
    ball_doors::check_door::margins_check(bytes)
}

// As `margins_ball` over the records' centres and their margins.
#[unsafe(no_mangle)]
pub extern "C" fn margins_ball_records(
    bytes: &[u8],
    readings: &[MarginsBall],
    work_centres: &mut [i64],
    work_margins: &mut [u64],
    output_centres: &mut [i64],
    output_margins: &mut [u64],
) -> MarginsReply
    ensures { Door ball_kind (formula bytes.now)
        (ball_readings (map centre_of readings.now) (map margin_of readings.now))
        (lent ball_kind (ball_lists work_centres.old work_margins.old)
        (ball_lists output_centres.old output_margins.old))
        (lent ball_kind (ball_lists work_centres.new work_margins.new)
        (ball_lists output_centres.new output_margins.new)) result }
{
    ball_doors::records::margins_ball_records(
        bytes,
        readings,
        work_centres,
        work_margins,
        output_centres,
        output_margins,
    )
}

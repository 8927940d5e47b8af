// The plain job: bare readings in, bare figures out, or the numbered refusal. Nothing has to be checked first.
#![tactic(auto)]

ghost use Rattle.formulas.specs.Kinds.{plain_kind};
ghost use Rattle.formulas.specs.Job.{lent, Kept};
ghost use Rattle.packed.specs.Meaning.{formula};

use plain_walk::PlainJob;
use refusals::Refused;

// The outputs for these readings, or the refusal.
pub fn run(
    s: &[u8],
    readings: &[i64],
    work: &mut [i64],
    output: &mut [i64],
) -> Result<usize, Refused>
    ensures { Kept plain_kind (formula s.now) readings.now
        (lent plain_kind work.old output.old)
        (lent plain_kind work.new output.new) result }
{
    let mut job = PlainJob {
        readings,
        work,
        output,
    };
    running::run(s, &mut job)
}

// The plain job for a logger in C or Rust, under its C name.
#![tactic(auto)]

ghost use Rattle.formulas.specs.Kinds.{plain_kind};
ghost use Rattle.formulas.specs.Job.{lent};
ghost use Rattle.packed.specs.Meaning.{formula};
ghost use Rattle.replies.specs.Doors.{Door};

use replies::{MarginsReply, replied};

pub fn margins_plain(
    bytes: &[u8],
    readings: &[i64],
    work: &mut [i64],
    output: &mut [i64],
) -> MarginsReply
    ensures { Door plain_kind (formula bytes.now) readings.now
        (lent plain_kind work.old output.old)
        (lent plain_kind work.new output.new) result }
{
    replied(plain_run::run(bytes, readings, work, output))
}

// A run of either kind on readings that fit, in lists that are long enough for every formula.
ghost use Rattle.std.specs.Prelude.{◌≡◌};
ghost use Rattle.card_maker.specs.Parts.{Runnable, Runs};

use bits::Cursor;
use formulas::Header;
use refusals::Refused;
use walks::{Job, copy, walk};

pub(crate) fn run<J: Job>(s: &[u8], h: Header, job: &mut J) -> Result<Cursor, Refused>
    requires { Runnable J.kind s.now h (J.given job.old) (J.work job.old) }
    ensures runs { Runs J.kind s.now h (J.given job.old) (J.work job.old) (J.work job.new) result }
    ensures same_lists { J.names job.new ≡ J.names job.old }
{
    copy(h.inputs, job);
    walk(s, h, job)
}

// A run of any kind: the formula checked, its readings tested, and all carried out; or the numbered refusal. Nothing has
// to be checked first.
#![tactic(auto)]

ghost use Rattle.std.specs.Prelude.{◌≡◌};
ghost use Rattle.formulas.specs.Job.{roomy, lent, Kept};
ghost use Rattle.packed.specs.Meaning.{formula};
ghost use Rattle.running.specs.Ready.{Tests, Ready, Begins};

use checking::checking::check;
use formulas::Header;
use outputs::pick;
use refusals::{Refusal, Refused};
use walks::{Job, copy, walk};

// m+l places to work in and n for the outputs.
fn enough(h: Header, work: usize, output: usize) -> bool
    ensures { result ≡ roomy h work output }
{
    h.inputs <= work && h.instructions <= work - h.inputs && h.outputs <= output
}

// The header where its readings passed and there is room for its values, or the refusal.
pub fn tested(
    h: Header,
    fit: Result<(), Refused>,
    work: usize,
    output: usize,
) -> Result<Header, Refused>
    ensures { Tests h fit work output result }
{
    let room = enough(h, work, output);
    fit?;
    if !room {
        return Err(Refusal::NoRoom.into());
    }
    Ok(h)
}

// The header of a formula that can be carried out on these readings in lists with so many places, or the refusal.
pub fn ready<J: Job>(s: &[u8], job: &J, work: usize, output: usize) -> Result<Header, Refused>
    ensures { Ready J.kind s.now (J.given job.now) work output result }
{
    let h = check(s)?;
    tested(h, job.test(h.inputs), work, output)
}

// The formula on readings that fit, in memory that is enough.
pub fn carry_out<J: Job>(s: &[u8], h: Header, job: &mut J) -> Result<usize, Refused>
    requires { Begins J.kind s.now h (J.given job.old) (lent J.kind (J.work job.old) (J.output job.old)) }
    ensures kept { Kept J.kind (formula s.now) (J.given job.old)
        (lent J.kind (J.work job.old) (J.output job.old))
        (lent J.kind (J.work job.new) (J.output job.new)) result }
    ensures same_lists { J.names job.new ≡ J.names job.old }
{
    copy(h.inputs, job);
    let end = walk(s, h, job)?;
    pick(s, end, h.outputs, job);
    Ok(h.outputs)
}

// The outputs for these readings, or the refusal.
pub fn run<J: Job>(s: &[u8], job: &mut J) -> Result<usize, Refused>
    ensures kept { Kept J.kind (formula s.now) (J.given job.old)
        (lent J.kind (J.work job.old) (J.output job.old))
        (lent J.kind (J.work job.new) (J.output job.new)) result }
    ensures same_lists { J.names job.new ≡ J.names job.old }
{
    let h = ready(s, job, job.room(), job.output_room())?;
    carry_out(s, h, job)
}

// The largest part of a domain that is admitted, by halves.
ghost use Rattle.std.specs.Prelude.{◌≡◌, ◌≤◌};
ghost use Rattle.formulas.specs.Kinds.{matryoshka_kind};
ghost use Rattle.explaining.specs.Explaining.{given_by, worked_in, HalfWay, Triable, Tries, Searchable, Searches};

use crate::Edge;
use crate::cutting::narrowed;
use formulas::Header;
use matryoshka_walk::DomainJob;
use refusals::Refused;
use walks::{Job, walk};

// One admission: of the domain at t.
fn admit_part(s: &[u8], h: Header, t: u64, job: &mut DomainJob) -> Result<(), Refused>
    requires { Triable s.now h t (given_by job.old) (worked_in job.old) }
    ensures tries { Tries s.now t (given_by job.old) result }
    ensures same_given { given_by job.new ≡ given_by job.old }
    ensures same_room { matryoshka_kind.room (worked_in job.new) ≡ matryoshka_kind.room (worked_in job.old) }
{
    for i in 0..h.inputs {
        let m = job.read(i);
        job.put(i, narrowed(t, m));
    }
    walk(s, h, job)?;
    Ok(())
}

// A part with as many others below it as above.
fn half(low: u64, high: u64) -> u64
    requires { low ≤ high }
    ensures { HalfWay low high result }
{
    low + (high - low) / 2
}

// Every part below `low` is admitted, and every one from `high` on refused. 255 comes first: it leaves one part above it, which is the
// whole domain, and 255 below it, which eight halvings tell apart.
pub(crate) fn search(s: &[u8], h: Header, job: &mut DomainJob) -> Edge
    requires { Searchable s.now h (given_by job.old) (worked_in job.old) }
    ensures { Searches s.now (given_by job.old) result }
{
    let mut low: u64 = 0;
    let mut high: u64 = 257;
    let mut t = 255;
    let mut met = None;
    let mut admissions = 0;
    while low < high {
        admissions += 1;
        match admit_part(s, h, t, job) {
            Ok(()) => low = t + 1,
            Err(e) => {
                high = t;
                met = Some(e);
            }
        }
        t = half(low, high);
    }
    Edge {
        first: low,
        met,
        admissions,
    }
}

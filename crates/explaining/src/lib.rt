// Why was this domain refused? The largest part of it that is admitted, found by halves. Nothing has to be checked first, and nothing is lent.
#![tactic(auto)]

ghost use Rattle.formulas.specs.Readings.{domain};
ghost use Rattle.explaining.specs.Explaining.{Tells, Lookable, Looks, ExplainsDomain};

use checking::checking::check;
use domain_readings::GivenDomain;
use formulas::Header;
use matryoshka_walk::DomainJob;
use readings::test;
use refusals::Refused;
use searching::search;

pub mod cutting;
pub mod searching;

// The first of the parts 0 to 256 that is refused and what it met, 257 where none is; and how many admissions that took.
#[derive(Clone, Copy)]
pub struct Edge {
    pub first: u64,
    pub met: Option<Refused>,
    pub admissions: u64,
}

// What a domain's refusal comes from: the largest part that is admitted, if any is, and what is met one part further.
#[derive(Clone, Copy)]
pub enum Explained {
    Nothing,
    AdmittedTo(u64, Refused),
    NeverAdmitted(Refused),
}

// The first part that is refused is told by the one before it.
fn told(e: Edge) -> Explained
    ensures { Tells e result }
{
    match e.met {
        None => Explained::Nothing,
        Some(met) if e.first == 0 => Explained::NeverAdmitted(met),
        Some(met) => Explained::AdmittedTo(e.first - 1, met),
    }
}

// A domain that fits, in lists that are long enough for every formula.
fn look(s: &[u8], h: Header, given: GivenDomain) -> Explained
    requires { Lookable s.now h (domain given.middles.now given.strays.now given.margins.now) }
    ensures { Looks s.now (domain given.entry.middles.now given.entry.strays.now given.entry.margins.now) result }
{
    let mut work_middles = [0i64; 528];
    let mut work_strays = [0u64; 528];
    let mut work_margins = [0u64; 528];
    let mut job = DomainJob {
        middles: given.middles,
        strays: given.strays,
        margins: given.margins,
        work_middles: &mut work_middles,
        work_strays: &mut work_strays,
        work_margins: &mut work_margins,
        output_middles: &mut [],
        output_strays: &mut [],
        output_margins: &mut [],
    };
    told(search(s, h, &mut job))
}

// How far this domain must shrink to be admitted, and what it meets one part further; or the refusal.
pub fn explain(
    s: &[u8],
    middles: &[i64],
    strays: &[i64],
    margins: &[i64],
) -> Result<Explained, Refused>
    ensures { ExplainsDomain s.now
        (domain middles.now strays.now margins.now) result }
{
    let h = check(s)?;
    let given = GivenDomain {
        middles,
        strays,
        margins,
    };
    test(&given, h.inputs)?;
    Ok(look(s, h, given))
}

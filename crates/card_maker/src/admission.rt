// The admission of a domain that fits, of which the static margins of all values are kept.
ghost use Rattle.formulas.specs.Readings.{domain};
ghost use Rattle.card_maker.specs.Parts.{Admissible, Admits};

use crate::working::run;
use bits::Cursor;
use domain_readings::GivenDomain;
use formulas::Header;
use matryoshka_walk::DomainJob;
use refusals::Refused;

// Middles and strays are not kept.
pub(crate) fn admit(
    s: &[u8],
    h: Header,
    given: GivenDomain,
    work_margins: &mut [u64],
) -> Result<Cursor, Refused>
    requires { Admissible s.now h (domain given.middles.now given.strays.now given.margins.now) work_margins.old }
    ensures { Admits s.now h (domain given.entry.middles.now given.entry.strays.now given.entry.margins.now)
        work_margins.old work_margins.new result }
{
    let mut work_middles = [0i64; 528];
    let mut work_strays = [0u64; 528];
    let mut job = DomainJob {
        middles: given.middles,
        strays: given.strays,
        margins: given.margins,
        work_middles: &mut work_middles,
        work_strays: &mut work_strays,
        work_margins,
        output_middles: &mut [],
        output_strays: &mut [],
        output_margins: &mut [],
    };
    run(s, h, &mut job)
}

// The admit job: once, on a whole domain, before the box ships. Nothing has to be checked first.
#![tactic(auto)]

ghost use Rattle.rules.specs.Lists.{matryoshka_lists};
ghost use Rattle.formulas.specs.Readings.{domain};
ghost use Rattle.formulas.specs.Kinds.{matryoshka_kind};
ghost use Rattle.formulas.specs.Job.{lent, Kept};
ghost use Rattle.packed.specs.Meaning.{formula};

use matryoshka_walk::DomainJob;
use refusals::Refused;

// The outputs' middles, strays and static margins for this domain, or the refusal.
pub fn run(
    s: &[u8],
    middles: &[i64],
    strays: &[i64],
    margins: &[i64],
    work_middles: &mut [i64],
    work_strays: &mut [u64],
    work_margins: &mut [u64],
    output_middles: &mut [i64],
    output_strays: &mut [u64],
    output_margins: &mut [u64],
) -> Result<usize, Refused>
    ensures { Kept matryoshka_kind (formula s.now)
        (domain middles.now strays.now margins.now)
        (lent matryoshka_kind
        (matryoshka_lists work_middles.old work_strays.old work_margins.old)
        (matryoshka_lists output_middles.old output_strays.old
        output_margins.old))
        (lent matryoshka_kind
        (matryoshka_lists work_middles.new work_strays.new work_margins.new)
        (matryoshka_lists output_middles.new output_strays.new output_margins.new))
        result }
{
    let mut job = DomainJob {
        middles,
        strays,
        margins,
        work_middles,
        work_strays,
        work_margins,
        output_middles,
        output_strays,
        output_margins,
    };
    running::run(s, &mut job)
}

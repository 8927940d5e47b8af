// The domain a caller brings to the admit job, and its three lists copied.
#![tactic(auto)]

ghost use Rattle.rules.specs.Lists.{matryoshka_lists};
ghost use Rattle.formulas.specs.Readings.{domain, domain_brought};
ghost use Rattle.domain_readings.specs.Copying.{Copyable, CopiesDomain};

use lists::{copy_numbers, copy_sizes};
use readings::{Reading, Readings};

// A middle, a stray and a margin for each input.
#[derive(Clone, Copy)]
pub struct GivenDomain<'a> {
    pub middles: &'a [i64],
    pub strays: &'a [i64],
    pub margins: &'a [i64],
}

impl Readings for GivenDomain<'_> {
    ghost brought = { λ g. domain_brought (domain g.middles.now g.strays.now g.margins.now) };

    fn count_is(&self, m: usize) -> bool {
        self.middles.len() == m && self.strays.len() == m && self.margins.len() == m
    }

    fn at(&self, i: usize) -> Reading {
        Reading {
            centre: self.middles[i],
            stray: self.strays[i],
            margin: self.margins[i],
        }
    }
}

// The domain, to the front of the work lists, whatever its lists hold.
pub fn copy_domain(
    middles: &[i64],
    strays: &[i64],
    margins: &[i64],
    work_middles: &mut [i64],
    work_strays: &mut [u64],
    work_margins: &mut [u64],
)
    requires { Copyable (domain middles.now strays.now margins.now)
        (matryoshka_lists work_middles.old work_strays.old work_margins.old) }
    ensures { CopiesDomain (domain middles.now strays.now margins.now)
        (matryoshka_lists work_middles.old work_strays.old work_margins.old)
        (matryoshka_lists work_middles.new work_strays.new work_margins.new) }
{
    copy_numbers(middles, work_middles);
    copy_sizes(strays, work_strays);
    copy_sizes(margins, work_margins);
}

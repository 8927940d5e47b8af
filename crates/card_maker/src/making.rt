// The card of a formula over a domain with all margins 0. A refusal leaves both lists as they were.
ghost use Rattle.formulas.specs.Readings.{domain};
ghost use Rattle.packed.specs.Meaning.{formula};
ghost use Rattle.cards.specs.Lent.{CardKept};
ghost use Rattle.card_maker.specs.Parts.{Startable, Makes, card_lists};

use crate::admission::admit;
use crate::picking::write;
use crate::slopes::grade_all;
use crate::testing::test;
use checking::checking::check;
use domain_readings::GivenDomain;
use formulas::Header;
use refusals::Refused;

// A formula and a domain that have passed the tests, in lists that are long enough for every formula.
fn carry_out(
    s: &[u8],
    h: Header,
    given: GivenDomain,
    static_margins: &mut [u64],
    slopes: &mut [u64],
) -> Result<usize, Refused>
    requires { Startable s.now h (domain given.middles.now given.strays.now given.margins.now)
        (card_lists static_margins.old slopes.old) }
    ensures { Makes s.now (domain given.entry.middles.now given.entry.strays.now given.entry.margins.now)
        (card_lists static_margins.old slopes.old)
        (card_lists static_margins.new slopes.new) result }
{
    let mut work_margins = [0u64; 528];
    let mut work_slopes = [0u64; 8448];
    admit(s, h, given, &mut work_margins)?;
    let c = grade_all(s, h, given.middles, given.strays, &mut work_slopes)?;
    write(s, h, c, &work_margins, &work_slopes, static_margins, slopes);
    Ok(h.outputs)
}

// E and L of n outputs in front of the two lists, or the refusal and its place.
pub fn make_card(
    s: &[u8],
    middles: &[i64],
    strays: &[i64],
    margins: &[i64],
    static_margins: &mut [u64],
    slopes: &mut [u64],
) -> Result<usize, Refused>
    ensures { CardKept (formula s.now)
        (domain middles.now strays.now margins.now)
        (card_lists static_margins.old slopes.old)
        (card_lists static_margins.new slopes.new) result }
{
    let h = check(s)?;
    let given = GivenDomain {
        middles,
        strays,
        margins,
    };
    test(h, given, static_margins.len(), slopes.len())?;
    carry_out(s, h, given, static_margins, slopes)
}

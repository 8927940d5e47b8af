// The tests between the check of a formula and its first step.
ghost use Rattle.std.specs.Prelude.{◌≡◌, ◌≤◌, pos};
ghost use Rattle.std.specs.List.{list_all};
ghost use Rattle.std.specs.Ordering.{int_eq};
ghost use Rattle.formulas.specs.Readings.{domain};
ghost use Rattle.cards.specs.Making.{card_room};
ghost use Rattle.card_maker.specs.Parts.{Tests};

use domain_readings::GivenDomain;
use formulas::Header;
use readings::test as test_readings;
use refusals::{Refusal, Refused};

// Whether no margin is there.
fn still(margins: &[i64]) -> bool
    ensures { result ≡ list_all (λ r. int_eq r (pos 0)) margins.now }
{
    margins.iter().all(|r| *r == 0)
}

// A place for each output, and one for each output and input.
fn enough(h: Header, static_room: usize, slope_room: usize) -> bool
    requires { (h.outputs ≤ 16) × (h.inputs ≤ 16) }
    ensures { result ≡ card_room h static_room slope_room }
{
    h.outputs <= static_room && h.outputs * h.inputs <= slope_room
}

// Refusals 13 to 15, then 22, then 10.
pub(crate) fn test(
    h: Header,
    given: GivenDomain,
    static_room: usize,
    slope_room: usize,
) -> Result<(), Refused>
    requires { (h.outputs ≤ 16) × (h.inputs ≤ 16) }
    ensures { Tests h (domain given.entry.middles.now given.entry.strays.now given.entry.margins.now)
        static_room slope_room result }
{
    test_readings(&given, h.inputs)?;
    if !still(given.margins) {
        return Err(Refusal::MarginNotZero.into());
    }
    if !enough(h, static_room, slope_room) {
        return Err(Refusal::NoRoom.into());
    }
    Ok(())
}

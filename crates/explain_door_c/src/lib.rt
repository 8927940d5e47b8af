// Why a domain was refused, under its C name: what `explain_door` promises.
#![tactic(auto)]

ghost use Rattle.formulas.specs.Readings.{domain};
ghost use Rattle.explain_door.specs.ExplainDoors.{ExplainDoor};

use explain_door::MarginsExplanation;

#[unsafe(no_mangle)]
pub extern "C" fn margins_explain(
    bytes: &[u8],
    middles: &[i64],
    strays: &[i64],
    margins: &[i64],
) -> MarginsExplanation
    ensures { ExplainDoor bytes.now
        (domain middles.now strays.now margins.now) result }
{
    explain_door::margins_explain(bytes, middles, strays, margins)
}

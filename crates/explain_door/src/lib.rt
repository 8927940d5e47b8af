// Why a domain was refused, for C.
#![tactic(auto)]

ghost use Rattle.std.specs.Prelude.{◌≡◌};
ghost use Rattle.formulas.specs.Readings.{domain};
ghost use Rattle.explaining.specs.Explaining.{explained_says};
ghost use Rattle.explain_door.specs.ExplainDoors.{margins_explanation, PartFits, ExplainDoor};

use explaining::{Explained, explain};
use refusals::{Refused, number_of};

// The number of the refusal, or 0 and the answer: 1 nothing to explain, 2 admitted to `parts` of 256, 3 never admitted; what was met one
// part further, or at 0; and its instruction, or the refused reading.
#[repr(C)]
#[derive(Clone, Copy)]
pub struct MarginsExplanation {
    pub refusal: u32,
    pub answer: u8,
    pub parts: u8,
    pub met: u16,
    pub place: u64,
}

fn told(r: Result<Explained, Refused>) -> MarginsExplanation
    requires { PartFits r }
    ensures { result ≡ margins_explanation (explained_says r) }
{
    let nothing = MarginsExplanation {
        refusal: 0,
        answer: 1,
        parts: 0,
        met: 0,
        place: 0,
    };
    match r {
        Err(e) => MarginsExplanation {
            refusal: number_of(e.why),
            answer: 0,
            place: e.place as u64,
            ..nothing
        },
        Ok(Explained::Nothing) => nothing,
        Ok(Explained::AdmittedTo(t, e)) => MarginsExplanation {
            answer: 2,
            parts: t as u8,
            met: number_of(e.why) as u16,
            place: e.place as u64,
            ..nothing
        },
        Ok(Explained::NeverAdmitted(e)) => MarginsExplanation {
            answer: 3,
            met: number_of(e.why) as u16,
            place: e.place as u64,
            ..nothing
        },
    }
}

pub fn margins_explain(
    bytes: &[u8],
    middles: &[i64],
    strays: &[i64],
    margins: &[i64],
) -> MarginsExplanation
    ensures { ExplainDoor bytes.now
        (domain middles.now strays.now margins.now) result }
{
    told(explain(bytes, middles, strays, margins))
}

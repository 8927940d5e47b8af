// The check job for C.
ghost use Rattle.std.specs.Prelude.{◌≡◌};
ghost use Rattle.packed.specs.Meaning.{checked};
ghost use Rattle.replies.specs.Doors.{margins_formula};

use checking::checking::check;
use replies::{MarginsFormula, formula_told};

pub fn margins_check(bytes: &[u8]) -> MarginsFormula
    ensures { result ≡ margins_formula (checked bytes.now) }
{
    formula_told(check(bytes))
}

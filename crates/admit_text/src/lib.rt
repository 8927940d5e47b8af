// The admit job, told.
// The run, the first line and the lines of outputs are shared; what is here is this job's own lists.
#![tactic(auto)]

ghost use Rattle.std.specs.Prelude.{◌≤◌, length};
ghost use Rattle.formulas.specs.Readings.{domain};
ghost use Rattle.formulas.specs.Kinds.{matryoshka_kind};
ghost use Rattle.lists.specs.Written.{Wrote};
ghost use Rattle.listing.specs.OutputLines.{matryoshka_fields};
ghost use Rattle.telling.specs.Program.{kind_text};

use admit_run::run;
use listing::outputs::put_matryoshki;
use telling::{count_of, put_headline};

// What the program prints of the admit job on this domain, to the front of `out`.
pub fn answer(
    formula: &[u8],
    middles: &[i64],
    strays: &[i64],
    margins: &[i64],
    out: &mut [u8],
) -> usize
    requires { 2048 ≤ length out.old }
    ensures { Wrote (kind_text matryoshka_kind matryoshka_fields formula.now
        (domain middles.now strays.now margins.now))
        0 out.old out.new result }
{
    let mut work_middles = [0; 528];
    let mut work_strays = [0; 528];
    let mut work_margins = [0; 528];
    let mut output_middles = [0; 16];
    let mut output_strays = [0; 16];
    let mut output_margins = [0; 16];
    let reply = run(
        formula,
        middles,
        strays,
        margins,
        &mut work_middles,
        &mut work_strays,
        &mut work_margins,
        &mut output_middles,
        &mut output_strays,
        &mut output_margins,
    );
    let at = put_headline(reply, out);
    put_matryoshki(
        &output_middles,
        &output_strays,
        &output_margins,
        count_of(reply),
        out,
        at,
    )
}

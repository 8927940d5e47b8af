// From the program's whole input to its whole output.
ghost use Rattle.text.specs.Prints.{Prints};

use parsing::finding::halves;
use refusals::Refusal;
use telling::put_refused;
use word_text::by_job;

// What the program prints for this input, to the front of `out`.
#[tactic(auto, unfolding(telling::specs::Program::program_text), using(parsing::proofs::Cuts::lines_cut, parsing::proofs::Cuts::cut_long))]
pub fn answer(input: &[u8], out: &mut [u8; 2048]) -> usize
    ensures { Prints input.now out.old out.new result }
{
    if input.len() > 16384 {
        return put_refused(Refusal::AnotherForm.into(), out);
    }
    let Some((formula, rest)) = halves(input, b'\n') else {
        return put_refused(Refusal::AnotherForm.into(), out);
    };
    let Some((word, readings)) = halves(rest, b'\n') else {
        return put_refused(Refusal::AnotherForm.into(), out);
    };
    by_job(formula, word, readings, out)
}

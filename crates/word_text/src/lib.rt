// The formula's line and the job's word, read.
#![tactic(auto)]

ghost use Rattle.lists.specs.Written.{Wrote};
ghost use Rattle.word_text.specs.Worded.{by_parts, Short};

use parsing::word;
use refusals::Refusal;
use rows_text::by_lines;
use telling::put_refused;

// The lines of the formula, of the job's word and of the readings, found.
pub fn by_job(formula: &[u8], job: &[u8], readings: &[u8], out: &mut [u8]) -> usize
    requires { Short formula.now readings.now out.old }
    ensures { Wrote (by_parts formula.now job.now readings.now)
        0 out.old out.new result }
{
    let mut bytes = [0; 8192];
    let Some(n) = hex_bytes::read(formula, &mut bytes) else {
        return put_refused(Refusal::AnotherForm.into(), out);
    };
    match word::read(job) {
        Some(job) => by_lines(job.numbers(), &bytes[..n], readings, out),
        None => put_refused(Refusal::AnotherForm.into(), out),
    }
}

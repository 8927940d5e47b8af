// The packer's tests, in the order in which the fields would be written, and how many bits they take.
#![tactic(auto)]

ghost use Rattle.std.specs.Prelude.{◌≡◌, ◌≤◌, length};
ghost use Rattle.packing.specs.Raw.{raw};
ghost use Rattle.packing.specs.Slots.{instruction_slots, result_slots, header_of, program_of};
ghost use Rattle.fitting.specs.Sizes.{coefficient_fits, Sizes, Counts, FormulaSizes};

use packing::Handed;
use refusals::Refusal;
use whole::{below, magnitude};

// Whether a centre and its margin reach at most M.
fn reaches(centre: i64, margin: i64) -> bool
    ensures { result ≡ coefficient_fits centre margin }
{
    let size = magnitude(centre);
    0 <= margin && size <= 0x7FFF_FFFF && magnitude(margin) <= 0x7FFF_FFFF - size
}

// An instruction that makes value `value` of a formula of that scale. Tests one after another: a table of all codes, which
// one `match` becomes, is mispredicted.
fn instruction_size(
    code: i64,
    first: i64,
    second: i64,
    scale: u64,
    value: usize,
) -> Result<usize, Refusal>
    ensures { Sizes (instruction_slots scale value (raw code first second)) result }
{
    let values = value as u64;
    if !below(code, 5) {
        return match code {
            5 if reaches(first, second) => Ok(66),
            5 => Err(Refusal::Constant),
            6 if 16 < scale => Err(Refusal::ReciprocalScale),
            6 if below(first, values) => Ok(13),
            6 => Err(Refusal::Operand),
            _ => Err(Refusal::Code),
        };
    }
    if code == 0 {
        if 0x7FFF_FFFF < magnitude(first) {
            return Err(Refusal::Constant);
        }
        return Ok(35);
    }
    if !below(first, values) {
        return Err(Refusal::Operand);
    }
    if code == 1 {
        return Ok(13);
    }
    if !below(second, values) {
        return Err(Refusal::Operand);
    }
    Ok(23)
}

// All instructions, the first of which makes value `inputs`.
fn program_size(given: &Handed) -> Result<usize, Refusal>
    requires { Counts given.now }
    ensures { Sizes (program_of given.now) result }
{
    let scale = magnitude(given.scale);
    let inputs = magnitude(given.inputs) as usize;
    let mut bits = 0;
    for (k, code) in given.codes.iter().enumerate() {
        bits += instruction_size(*code, given.firsts[k], given.seconds[k], scale, inputs + k)?;
    }
    Ok(bits)
}

// All outputs, each naming a value below `values`.
fn results_size(outputs: &[i64], values: usize) -> Result<usize, Refusal>
    requires { length outputs.now ≤ 16 }
    ensures { Sizes (result_slots values outputs.now) result }
{
    for output in outputs {
        if !below(*output, values as u64) {
            return Err(Refusal::Operand);
        }
    }
    Ok(10 * outputs.len())
}

// The header. The number of instructions is the length of each of their lists.
fn header_size(given: &Handed) -> Result<usize, Refusal>
    ensures { Sizes (header_of given.now) result }
{
    if !below(given.scale, 31) {
        return Err(Refusal::Scale);
    }
    let l = given.codes.len();
    let n = given.outputs.len();
    if !below(given.inputs, 17)
        || l != given.firsts.len()
        || l != given.seconds.len()
        || 512 < l
        || n < 1
        || 16 < n
    {
        return Err(Refusal::Count);
    }
    Ok(32)
}

// A whole formula: how many bits it takes, or the first refusal.
pub fn formula_size(given: &Handed) -> Result<usize, Refusal>
    ensures { FormulaSizes given.now result }
{
    let header = header_size(given)?;
    let program = program_size(given)?;
    let values = magnitude(given.inputs) as usize + given.codes.len();
    let results = results_size(given.outputs, values)?;
    Ok(header + program + results)
}

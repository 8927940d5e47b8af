// A formula that passed its tests, written: fields put by a writer of bits, one after another.
#![tactic(auto)]

ghost use Rattle.std.specs.Prelude.{◌≡◌, pos, nat_abs};
ghost use Rattle.rules.specs.Values.{Allowed};
ghost use Rattle.packing.specs.Raw.{raw};
ghost use Rattle.packing.specs.Slots.{encoded};
ghost use Rattle.putting.specs.Putting.{
  HeaderPuttable,
  PutsHeader,
  InstructionPuttable,
  PutsInstruction,
  ProgramPuttable,
  PutsProgram,
  ResultsPuttable,
  PutsResults,
};
ghost use Rattle.putting.specs.Writing.{Writable, WritesFormula};

use packing::Handed;
use writing::Writer;

// As a field of 32 bits holds it.
fn word(z: i64) -> u64
    requires { Allowed z }
    ensures { result ≡ encoded z }
{
    u64::from((z as i32).cast_unsigned())
}

// A number from 0 on.
fn natural(z: i64) -> u64
    requires { z ≡ pos (nat_abs z) }
    ensures { result ≡ encoded z }
{
    z as u64
}

// The header: version 1, the scale and the three counts.
fn put_header(given: &Handed, out: &mut [u8]) -> Writer
    requires { HeaderPuttable given.now out.old }
    ensures { PutsHeader given.now out.old out.new result }
{
    let inputs_on = (0x20 + natural(given.scale)) * 0x20 + natural(given.inputs);
    let n = (inputs_on * 0x400 + given.codes.len() as u64) * 0x20 + given.outputs.len() as u64;
    let w = Writer {
        at: 0,
        count: 0,
        held: 0,
    };
    w.put(out, 32, n)
}

// Operands go with their code as one number; a constant and its margin are numbers of their own.
fn put_instruction(code: i64, first: i64, second: i64, w: Writer, out: &mut [u8]) -> Writer
    requires { InstructionPuttable (raw code first second) w out.old }
    ensures { PutsInstruction (raw code first second) w out.old out.new result }
{
    match natural(code) {
        0 => {
            let coded = w.put(out, 3, 0);
            coded.put(out, 32, word(first))
        }
        1 => w.put(out, 13, 0x400 + natural(first)),
        5 => {
            let coded = w.put(out, 3, 5);
            let centred = coded.put(out, 32, word(first));
            centred.put(out, 31, natural(second))
        }
        6 => w.put(out, 13, 0x1800 + natural(first)),
        c => w.put(
            out,
            23,
            (c * 0x400 + natural(first)) * 0x400 + natural(second),
        ),
    }
}

// All instructions.
fn put_program(given: &Handed, start: Writer, out: &mut [u8]) -> Writer
    requires { ProgramPuttable given.now start out.old }
    ensures { PutsProgram given.now start out.old out.new result }
{
    let mut w = start;
    for (k, code) in given.codes.iter().enumerate() {
        w = put_instruction(*code, given.firsts[k], given.seconds[k], w, out);
    }
    w
}

// All outputs.
fn put_results(outputs: &[i64], start: Writer, out: &mut [u8]) -> Writer
    requires { ResultsPuttable outputs.now start out.old }
    ensures { PutsResults outputs.now start out.old out.new result }
{
    let mut w = start;
    for output in outputs {
        w = w.put(out, 10, natural(*output));
    }
    w
}

// A formula that passed its tests, in a list with room for it.
pub fn write(given: &Handed, out: &mut [u8]) -> usize
    requires { Writable given.now out.old }
    ensures { WritesFormula given.now out.old out.new result }
{
    let header = put_header(given, out);
    let program = put_program(given, header, out);
    let results = put_results(given.outputs, program, out);
    results.finish(out)
}

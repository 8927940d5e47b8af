// What the fields of an instruction make: a constant, and the instruction that a code makes of two operands.
ghost use Rattle.std.specs.Prelude.{◌≡◌, ◌^◌, ◌<◌};
ghost use Rattle.packed.specs.Items.{twos_complement};
ghost use Rattle.packed.specs.ReaderAnswers.{combined};

use formulas::Instruction;

// 32 bits in two's complement.
pub fn signed(n: u64) -> i64
    requires { n < 2 ^ 32 }
    ensures { result ≡ twos_complement n }
{
    i64::from((n as u32).cast_signed())
}

// The instruction that a code from 2 on makes of two operands. A code stays the three bits of the format; the enum that
// codes become is `Instruction`.
pub fn combine(code: u64, i: usize, j: usize) -> Instruction
    ensures { result ≡ combined code i j }
{
    if code == 2 {
        return Instruction::Add(i, j);
    }
    if code == 3 {
        return Instruction::Subtract(i, j);
    }
    Instruction::Multiply(i, j)
}

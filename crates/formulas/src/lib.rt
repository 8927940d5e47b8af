// A formula without its bytes. What a run of it is, on lists, is in specs/; what that entails, in proofs/.
#![tactic(auto)]

// F, m, l and n.
#[derive(Clone, Copy)]
pub struct Header {
    pub scale: u32,
    pub inputs: usize,
    pub instructions: usize,
    pub outputs: usize,
}

// An operand is the number of a value.
#[derive(Clone, Copy)]
pub enum Instruction {
    Constant(i64),
    Negate(usize),
    Add(usize, usize),
    Subtract(usize, usize),
    Multiply(usize, usize),
    // A constant with a margin.
    Coefficient(i64, u64),
    Reciprocal(usize),
}

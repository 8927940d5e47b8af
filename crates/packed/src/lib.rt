// The packed formula: the fields of an instruction, and the instructions of a checked formula.
#![tactic(auto)]

pub mod coefficient;
pub mod loaded;
pub mod making;
pub mod walking;

// An instruction, and the cursor past it.
#[derive(Clone, Copy)]
pub struct Decoded {
    pub instruction: formulas::Instruction,
    pub next: bits::Cursor,
}

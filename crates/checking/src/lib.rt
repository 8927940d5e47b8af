// Whether bytes are a formula: the header, all the instructions, all the outputs, the padding.
#![tactic(auto)]

pub mod checking;
pub mod passing;

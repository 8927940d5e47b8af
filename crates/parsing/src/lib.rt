// The text that the program reads, taken apart: the first place of a byte, the job's word.
#![tactic(auto)]

pub mod finding;
pub mod word;

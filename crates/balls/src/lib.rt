// Balls: a step for each instruction.
#![tactic(auto)]

pub mod steps;

// Reading lines: decimal numbers with one space between, a line each.
#![tactic(auto)]

pub mod column;
pub mod row;

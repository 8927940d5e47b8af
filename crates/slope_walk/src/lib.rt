// The slopes of a checked formula, all in one list: that of value v at input i stands at v·m + i.
#![tactic(auto)]

pub mod rows;
pub mod steps;
pub mod walking;

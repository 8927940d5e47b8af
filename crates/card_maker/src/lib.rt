// The card of static margins, made: tested, worked out in lists of its own, and written last.
#![tactic(auto)]

pub mod admission;
pub mod making;
pub mod picking;
pub mod slopes;
pub mod testing;
pub mod working;

// Plain values: a step for each instruction. The kinds' steps have no code in common but what `rounding` and `reciprocals`
// hold, so that each kind has functions of its own.
#![tactic(auto)]

pub mod steps;

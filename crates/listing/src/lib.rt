// What the program prints of a run's outputs, a line each, written into a list of bytes that the caller lends. Each
// function takes the list and the place to write from, and answers the place after what it wrote.
#![tactic(auto)]

pub mod lines;
pub mod outputs;

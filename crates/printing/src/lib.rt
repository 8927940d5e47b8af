// Bytes and decimal numbers, written into a list of bytes that the caller lends. Each function takes the list and the
// place to write from, and answers the place after what it wrote.
#![tactic(auto)]

pub mod bytes;
pub mod numbers;

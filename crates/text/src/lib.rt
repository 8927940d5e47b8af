// What the program `margins` prints for what it reads: text in, text out.
#![tactic(auto)]

pub mod answering;

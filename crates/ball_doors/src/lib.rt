// The check and the ball job, over two lists and over records, as a logger in C or Rust links them.
#![tactic(auto)]

pub mod ball_door;
pub mod check_door;
pub mod records;

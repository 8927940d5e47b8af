// The packer and reading back, as a program in C or Rust links them.
#![tactic(auto)]

pub mod pack_door;
pub mod unpack_door;

// The values that the rules speak of. The rules themselves are in specs/.
#![tactic(auto)]

// A centre and a margin, in units of 2^-F.
#[derive(Clone, Copy, PartialEq, Eq)]
pub struct Ball {
    pub centre: i64,
    pub margin: u64,
}

// A middle, how far a computed centre may stray from it, and the static margin.
#[derive(Clone, Copy, PartialEq, Eq)]
pub struct Matryoshka {
    pub middle: i64,
    pub stray: u64,
    pub margin: u64,
}

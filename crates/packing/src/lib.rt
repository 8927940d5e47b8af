// The packer's demands, and a formula as it is handed over for packing.
#![tactic(auto)]

use std::marker::Model;

// "One list a part": an instruction is a place in each of the first three. C hands them over, codes and all, so the numbers
// may be anything.
#[derive(Drop)]
pub struct Handed<'a> {
    pub scale: i64,
    pub inputs: i64,
    pub codes: &'a [i64],
    pub firsts: &'a [i64],
    pub seconds: &'a [i64],
    pub outputs: &'a [i64],
}

impl<'a> Model for Handed<'a> {
    ghost use Rattle.packing.specs.Raw.{RawFormula};

    ghost Value = { RawFormula };

    ghost use Rattle.packing.specs.Lent.{lent};

    ghost view = { lent };
}

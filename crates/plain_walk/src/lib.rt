// What a caller brings and lends for a plain run: bare readings, and a list each to work in and for the outputs.
#![tactic(auto)]

ghost use Rattle.std.specs.Prelude.{◌≡◌, ◌<◌, ℕ};
ghost use Rattle.formulas.specs.Kinds.{plain_kind, Stands};
ghost use Rattle.formulas.proofs.Lawful.{plain_lawful};

use formulas::Instruction;
use plain::steps;
use readings::GivenValues;
use refusals::{Refusal, Refused};
use walks::Job;

#[derive(Drop)]
pub struct PlainJob<'g, 'w, 'o> {
    pub readings: &'g [i64],
    pub work: &'w mut [i64],
    pub output: &'o mut [i64],
}

impl PlainJob<'_, '_, '_> {
    // A value of the work lists.
    fn at(&self, i: usize) -> i64
        requires { i < plain_kind.room (self.now.work.now) }
        ensures { Stands plain_kind i (self.now.work.now) result }
    {
        self.work[i]
    }
}

impl Job for PlainJob<'_, '_, '_> {
    type Value = i64;

    ghost kind = { plain_kind };

    ghost meant = { λ x. x };

    ghost given = { λ j. j.readings.now };

    ghost work = { λ j. j.work.now };

    ghost output = { λ j. j.output.now };

    ghost Names = { ℕ × ℕ };

    ghost names = { λ j. (j.work.ghost_name, j.output.ghost_name) };

    fn test(&self, m: usize) -> Result<(), Refused> {
        readings::test(
            &GivenValues {
                values: self.readings,
            },
            m,
        )
    }

    fn read(&self, i: usize) -> i64 {
        self.readings[i]
    }

    fn room(&self) -> usize {
        self.work.len()
    }

    fn put(&mut self, i: usize, v: i64) {
        self.work[i] = v;
    }

    fn step(&self, scale: u32, i: Instruction, made: usize) -> Result<i64, Refusal> {
        match i {
            Instruction::Constant(c) => steps::constant(c),
            Instruction::Negate(a) => steps::negate(self.at(a)),
            Instruction::Add(a, b) => steps::add(self.at(a), self.at(b)),
            Instruction::Subtract(a, b) => steps::subtract(self.at(a), self.at(b)),
            Instruction::Multiply(a, b) => steps::multiply(scale, self.at(a), self.at(b)),
            Instruction::Coefficient(c, _) => steps::constant(c),
            Instruction::Reciprocal(a) => steps::reciprocal(scale, self.at(a)),
        }
    }

    fn output_room(&self) -> usize {
        self.output.len()
    }

    fn give(&mut self, k: usize, o: usize) {
        self.output[k] = self.work[o];
    }

    ghost lawful = { plain_lawful };
}

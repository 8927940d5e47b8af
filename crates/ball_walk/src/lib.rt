// What a caller brings and lends for a ball run: centres in one list, margins in the other.
#![tactic(auto)]

ghost use Rattle.std.specs.Prelude.{◌≡◌, ◌<◌, ℕ};
ghost use Rattle.rules.specs.Lists.{ball_lists};
ghost use Rattle.formulas.specs.Readings.{ball_readings};
ghost use Rattle.formulas.specs.Kinds.{ball_kind, Stands};
ghost use Rattle.formulas.proofs.Lawful.{ball_lawful};

use balls::steps;
use formulas::Instruction;
use lists::least_of;
use readings::GivenBalls;
use refusals::{Refusal, Refused};
use rules::Ball;
use walks::Job;
use whole::magnitude;

#[derive(Drop)]
pub struct BallJob<'g, 'w, 'o> {
    pub centres: &'g [i64],
    pub margins: &'g [i64],
    pub work_centres: &'w mut [i64],
    pub work_margins: &'w mut [u64],
    pub output_centres: &'o mut [i64],
    pub output_margins: &'o mut [u64],
}

impl BallJob<'_, '_, '_> {
    // A value of the work lists.
    fn at(&self, i: usize) -> Ball
        requires { i < ball_kind.room (ball_lists self.now.work_centres.now self.now.work_margins.now) }
        ensures { Stands ball_kind i (ball_lists self.now.work_centres.now self.now.work_margins.now) result }
    {
        Ball {
            centre: self.work_centres[i],
            margin: self.work_margins[i],
        }
    }
}

impl Job for BallJob<'_, '_, '_> {
    type Value = Ball;

    ghost kind = { ball_kind };

    ghost meant = { λ x. x };

    ghost given = { λ j. ball_readings j.centres.now j.margins.now };

    ghost work = { λ j. ball_lists j.work_centres.now j.work_margins.now };

    ghost output = { λ j. ball_lists j.output_centres.now j.output_margins.now };

    ghost Names = { ℕ × ℕ × ℕ × ℕ };

    ghost names = { λ j. (j.work_centres.ghost_name, j.work_margins.ghost_name, j.output_centres.ghost_name, j.output_margins.ghost_name) };

    fn test(&self, m: usize) -> Result<(), Refused> {
        readings::test(
            &GivenBalls {
                centres: self.centres,
                margins: self.margins,
            },
            m,
        )
    }

    fn read(&self, i: usize) -> Ball {
        Ball {
            centre: self.centres[i],
            margin: magnitude(self.margins[i]),
        }
    }

    fn room(&self) -> usize {
        least_of(self.work_centres.len(), self.work_margins.len())
    }

    fn put(&mut self, i: usize, v: Ball) {
        self.work_centres[i] = v.centre;
        self.work_margins[i] = v.margin;
    }

    fn step(&self, scale: u32, i: Instruction, made: usize) -> Result<Ball, Refusal> {
        match i {
            Instruction::Constant(c) => steps::constant(c),
            Instruction::Negate(a) => steps::negate(self.at(a)),
            Instruction::Add(a, b) => steps::add(self.at(a), self.at(b)),
            Instruction::Subtract(a, b) => steps::subtract(self.at(a), self.at(b)),
            Instruction::Multiply(a, b) => steps::multiply(scale, self.at(a), self.at(b)),
            Instruction::Coefficient(c, r) => steps::coefficient(c, r),
            Instruction::Reciprocal(a) => steps::reciprocal(scale, self.at(a)),
        }
    }

    fn output_room(&self) -> usize {
        least_of(self.output_centres.len(), self.output_margins.len())
    }

    fn give(&mut self, k: usize, o: usize) {
        self.output_centres[k] = self.work_centres[o];
        self.output_margins[k] = self.work_margins[o];
    }

    ghost lawful = { ball_lawful };
}

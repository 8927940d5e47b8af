// What a caller brings and lends for an admission: middles, strays and static margins in a list each.
#![tactic(auto)]

ghost use Rattle.std.specs.Prelude.{◌≡◌, ◌<◌, ℕ};
ghost use Rattle.rules.specs.Lists.{matryoshka_lists};
ghost use Rattle.formulas.specs.Readings.{domain};
ghost use Rattle.formulas.specs.Kinds.{matryoshka_kind, Stands};
ghost use Rattle.formulas.proofs.Lawful.{matryoshka_lawful};

use domain_readings::GivenDomain;
use formulas::Instruction;
use lists::least_of_three;
use matryoshki::steps;
use refusals::{Refusal, Refused};
use rules::Matryoshka;
use walks::Job;
use whole::magnitude;

#[derive(Drop)]
pub struct DomainJob<'g, 'w, 'o> {
    pub middles: &'g [i64],
    pub strays: &'g [i64],
    pub margins: &'g [i64],
    pub work_middles: &'w mut [i64],
    pub work_strays: &'w mut [u64],
    pub work_margins: &'w mut [u64],
    pub output_middles: &'o mut [i64],
    pub output_strays: &'o mut [u64],
    pub output_margins: &'o mut [u64],
}

impl DomainJob<'_, '_, '_> {
    // A value of the work lists.
    fn at(&self, i: usize) -> Matryoshka
        requires { i < matryoshka_kind.room (matryoshka_lists self.now.work_middles.now self.now.work_strays.now self.now.work_margins.now) }
        ensures { Stands matryoshka_kind i (matryoshka_lists self.now.work_middles.now self.now.work_strays.now self.now.work_margins.now) result }
    {
        Matryoshka {
            middle: self.work_middles[i],
            stray: self.work_strays[i],
            margin: self.work_margins[i],
        }
    }
}

impl Job for DomainJob<'_, '_, '_> {
    type Value = Matryoshka;

    ghost kind = { matryoshka_kind };

    ghost meant = { λ x. x };

    ghost given = { λ j. domain j.middles.now j.strays.now j.margins.now };

    ghost work = { λ j. matryoshka_lists j.work_middles.now j.work_strays.now j.work_margins.now };

    ghost output = { λ j. matryoshka_lists j.output_middles.now j.output_strays.now j.output_margins.now };

    ghost Names = { ℕ × ℕ × ℕ × ℕ × ℕ × ℕ };

    ghost names = { λ j. (j.work_middles.ghost_name, j.work_strays.ghost_name, j.work_margins.ghost_name, j.output_middles.ghost_name, j.output_strays.ghost_name, j.output_margins.ghost_name) };

    fn test(&self, m: usize) -> Result<(), Refused> {
        readings::test(
            &GivenDomain {
                middles: self.middles,
                strays: self.strays,
                margins: self.margins,
            },
            m,
        )
    }

    fn read(&self, i: usize) -> Matryoshka {
        Matryoshka {
            middle: self.middles[i],
            stray: magnitude(self.strays[i]),
            margin: magnitude(self.margins[i]),
        }
    }

    fn room(&self) -> usize {
        least_of_three(
            self.work_middles.len(),
            self.work_strays.len(),
            self.work_margins.len(),
        )
    }

    fn put(&mut self, i: usize, v: Matryoshka) {
        self.work_middles[i] = v.middle;
        self.work_strays[i] = v.stray;
        self.work_margins[i] = v.margin;
    }

    fn step(&self, scale: u32, i: Instruction, made: usize) -> Result<Matryoshka, Refusal> {
        match i {
            Instruction::Constant(c) => steps::constant(c),
            Instruction::Negate(a) => steps::negate(self.at(a)),
            Instruction::Add(a, b) => steps::add(self.at(a), self.at(b)),
            Instruction::Subtract(a, b) => steps::subtract(self.at(a), self.at(b)),
            Instruction::Multiply(a, b) => steps::multiply(scale, self.at(a), self.at(b)),
            Instruction::Coefficient(c, r) => steps::coefficient(c, r),
            Instruction::Reciprocal(a) => steps::reciprocal(scale, self.at(a)),
        }
    }

    fn output_room(&self) -> usize {
        least_of_three(
            self.output_middles.len(),
            self.output_strays.len(),
            self.output_margins.len(),
        )
    }

    fn give(&mut self, k: usize, o: usize) {
        self.output_middles[k] = self.work_middles[o];
        self.output_strays[k] = self.work_strays[o];
        self.output_margins[k] = self.work_margins[o];
    }

    ghost lawful = { matryoshka_lawful };
}

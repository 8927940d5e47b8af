// Formulas as people write them, read by sum, product and factor, which call each other: the text left and the nesting
// room fall. Each number, minus and operator is kept as one instruction.
#![tactic(auto)]

ghost use Rattle.std.specs.Prelude.{◌≡◌, ◌+◌, ◌<◌, ◌≤◌, length, get_or};
ghost use Rattle.rules.specs.Numbers.{top_scale};
ghost use Rattle.expressions.specs.Grammar.{a_factor};
ghost use Rattle.expression_parser.specs.Words.{joins, word_of, WordFits, Keepable, one_more, Puts};
ghost use Rattle.expression_parser.specs.Parts.{NoOther, Begins, SignAt, Opens, Closes, Readable, each_of, whole_of, Part};
ghost use Rattle.expression_parser.specs.Parsed.{ParsedSo};

use formulas::Instruction;
use numerals::placed;
use refusals::{Refusal, Refused};
use whole::magnitude;

// The number of the value that a text makes, the place behind it, and how many instructions there are.
#[derive(Clone, Copy)]
pub struct Made {
    pub value: usize,
    pub at: usize,
    pub count: usize,
}

// How a factor begins at a place, if it does.
#[derive(Clone, Copy)]
enum Begin {
    Parenthesis,
    Minus,
    Letter(usize),
    Number,
}

// What is joined: the factors of a product by *, the products of a sum by + and -.
#[derive(Clone, Copy)]
enum Operands {
    Factors,
    Products,
}

#[derive(Clone, Copy)]
enum Sign {
    Times,
    Plus,
    Minus,
}

impl Sign {
    fn joins(self, first: usize, second: usize) -> Instruction
        ensures { result ≡ joins self first second }
    {
        match self {
            Sign::Times => Instruction::Multiply(first, second),
            Sign::Plus => Instruction::Add(first, second),
            Sign::Minus => Instruction::Subtract(first, second),
        }
    }
}

// An instruction's code in the low three bits, then a constant from 0 on, or the operands, ten bits each; a
// coefficient's margin is 1.
fn word_of(i: Instruction) -> u64
    requires { WordFits i }
    ensures { result ≡ word_of i }
{
    match i {
        Instruction::Constant(c) => 8 * magnitude(c),
        Instruction::Negate(a) => 8 * a as u64 + 1,
        Instruction::Add(a, b) => 8 * (a as u64 + 1024 * b as u64) + 2,
        Instruction::Subtract(a, b) => 8 * (a as u64 + 1024 * b as u64) + 3,
        Instruction::Multiply(a, b) => 8 * (a as u64 + 1024 * b as u64) + 4,
        Instruction::Coefficient(c, _) => 8 * magnitude(c) + 5,
        Instruction::Reciprocal(a) => 8 * a as u64 + 6,
    }
}

// What a text is read with: itself, the scale of its numbers, how many letters are inputs, and how many more parentheses
// and minuses may be open.
#[derive(Clone, Copy)]
struct Source<'a> {
    text: &'a [u8],
    scale: u32,
    inputs: usize,
    room: usize,
}

// How far it was read, and how many instructions there are so far.
#[derive(Clone, Copy)]
struct Reached {
    at: usize,
    count: usize,
}

impl<'a> Source<'a> {
    // The letter a is input 0.
    fn begin_of(&self, at: usize) -> Begin
        ensures { Begins self.now.inputs (get_or self.now.text.now at 0) result }
    {
        let Some(b) = self.text.get(at) else {
            return Begin::Number;
        };
        match *b {
            b'(' => Begin::Parenthesis,
            b'-' => Begin::Minus,
            b @ b'a'.. if ((b - b'a') as usize) < self.inputs => Begin::Letter((b - b'a') as usize),
            _ => Begin::Number,
        }
    }

    fn sign_at(&self, operands: Operands, at: usize) -> Option<Sign>
        ensures { SignAt (get_or self.now.text.now at 0) operands result }
    {
        match (operands, *self.text.get(at)?) {
            (Operands::Factors, b'*') => Some(Sign::Times),
            (Operands::Products, b'+') => Some(Sign::Plus),
            (Operands::Products, b'-') => Some(Sign::Minus),
            _ => None,
        }
    }

    // The parenthesis or minus that stands here, inside of which one fewer may be open.
    fn open(&self, reached: &mut Reached) -> Result<Source<'a>, Refused>
        requires { reached.old.at < length self.now.text.now }
        ensures { Opens self.now reached.old reached.new result }
    {
        if self.room == 0 {
            return Err(Refused {
                why: Refusal::TooDeep,
                place: reached.at,
            });
        }
        reached.at += 1;
        Ok(Source {
            room: self.room - 1,
            ..*self
        })
    }

    // A sum in parentheses must be closed.
    fn close(&self, reached: &mut Reached) -> Result<(), Refused>
        ensures { Closes (get_or self.now.text.now reached.old.at 0) reached.old reached.new result }
    {
        if let Some(b')') = self.text.get(reached.at) {
            reached.at += 1;
            return Ok(());
        }
        Err(Refused {
            why: Refusal::Misplaced,
            place: reached.at,
        })
    }

    // One instruction more, where the list has a place for its word: the number of the value that it makes.
    fn keep(&self, i: Instruction, reached: &mut Reached, words: &mut [u64]) -> usize
        requires { Keepable (length words.old) self.now.inputs i reached.old }
        ensures { (result ≡ self.now.inputs + reached.old.count) × (reached.new ≡ one_more reached.old)
            × Puts reached.old.count (word_of i) words.old words.new }
    {
        let count = reached.count;
        if count < words.len() {
            words[count] = word_of(i);
        }
        reached.count += 1;
        self.inputs + count
    }

    // A number as it is written: rounded to units, exact or give or take 1. Where no digit stands, that byte is
    // misplaced.
    fn number(&self, reached: &mut Reached, words: &mut [u64]) -> Result<usize, Refused>
        requires { Readable self.now reached.old (length words.old)
            × NoOther self.now.inputs (get_or self.now.text.now reached.old.at 0) }
        ensures { Part a_factor self.now reached.old words.old words.new reached.new result }
    {
        let read = placed(numerals::read(self.text, reached.at), Refusal::Misplaced)?;
        let units = numerals::units_of(self.scale, read.number);
        let centre = units.count as i64;
        let i = if units.exact {
            Instruction::Constant(centre)
        } else {
            Instruction::Coefficient(centre, 1)
        };
        reached.at = read.end;
        Ok(self.keep(i, reached, words))
    }

    // A letter, a number, a minus and a factor, or a sum in parentheses.
    #[cycle(parts)]
    fn factor(&self, reached: &mut Reached, words: &mut [u64]) -> Result<usize, Refused>
        requires { Readable self.now reached.old (length words.old) }
        ensures { Part a_factor self.now reached.old words.old words.new reached.new result }
    {
        match self.begin_of(reached.at) {
            Begin::Parenthesis => {
                let inside = self.open(reached)?;
                let value = inside.joined(Operands::Products, reached, words)?;
                self.close(reached)?;
                Ok(value)
            }
            Begin::Minus => {
                let inside = self.open(reached)?;
                let value = inside.factor(reached, words)?;
                Ok(self.keep(Instruction::Negate(value), reached, words))
            }
            Begin::Letter(value) => {
                reached.at += 1;
                Ok(value)
            }
            Begin::Number => self.number(reached, words),
        }
    }

    #[cycle(parts)]
    fn operand(
        &self,
        operands: Operands,
        reached: &mut Reached,
        words: &mut [u64],
    ) -> Result<usize, Refused>
        requires { Readable self.now reached.old (length words.old) }
        ensures { Part (each_of operands) self.now reached.old words.old words.new reached.new result }
    {
        match operands {
            Operands::Factors => self.factor(reached, words),
            Operands::Products => self.joined(Operands::Factors, reached, words),
        }
    }

    // Operands joined by their signs, grouped from the left.
    #[cycle(parts)]
    fn joined(
        &self,
        operands: Operands,
        reached: &mut Reached,
        words: &mut [u64],
    ) -> Result<usize, Refused>
        requires { Readable self.now reached.old (length words.old) }
        ensures { Part (whole_of operands) self.now reached.old words.old words.new reached.new result }
    {
        let mut left = self.operand(operands, reached, words)?;
        while let Some(sign) = self.sign_at(operands, reached.at) {
            reached.at += 1;
            let right = self.operand(operands, reached, words)?;
            left = self.keep(sign.joins(left, right), reached, words);
        }
        Ok(left)
    }
}

// A whole text, with at most 32 parentheses and minuses open at once.
pub fn parse(text: &[u8], scale: u32, inputs: usize, words: &mut [u64]) -> Result<Made, Refused>
    requires { (scale ≤ top_scale) × (inputs ≤ 16) × (length words.old ≤ 512) }
    ensures { ParsedSo scale inputs text.now words.old words.new result }
{
    let source = Source {
        text,
        scale,
        inputs,
        room: 32,
    };
    let mut reached = Reached { at: 0, count: 0 };
    let value = source.joined(Operands::Products, &mut reached, words)?;
    let Reached { at, count } = reached;
    if at < text.len() {
        return Err(Refused {
            why: Refusal::Misplaced,
            place: at,
        });
    }
    Ok(Made { value, at, count })
}

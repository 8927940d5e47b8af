// Why a caller gets no answer, and how a test or a job ended. A later refusal is one line in `Refusal` and
// one in specs/Refusals.
#![tactic(auto)]

ghost use Rattle.std.specs.Prelude.{◌≡◌};
ghost use Rattle.refusals.specs.Refusals.{refusal_number};

// In the order of the numbers; 9 is none, and 21 and 23 are not given yet.
#[derive(Clone, Copy, PartialEq, Eq)]
pub enum Refusal {
    Ended = 1,
    Version = 2,
    Scale = 3,
    Count = 4,
    Code = 5,
    Operand = 6,
    Constant = 7,
    Padding = 8,
    NoRoom = 10,
    OutOfReach = 11,
    AnotherForm = 12,
    ReadingCount = 13,
    NegativeMargin = 14,
    ReadingTooLarge = 15,
    ReciprocalScale = 16,
    MayBeZero = 17,
    Misplaced = 18,
    TooDeep = 19,
    CardMisfit = 20,
    MarginNotZero = 22,
    NumberText = 24,
    MarginText = 25,
    BallReach = 26,
    DecimalPlaces = 27,
}

// A refusal, and its place: the reading's index or, for 11 and 17, the instruction's.
#[derive(Clone, Copy, PartialEq, Eq)]
pub struct Refused {
    pub why: Refusal,
    pub place: usize,
}

// Every other refusal has place 0.
impl From<Refusal> for Refused {
    ghost from_gives = { λ why r. r ≡ record { why = why; place = 0 } };

    fn from(why: Refusal) -> Refused {
        Refused { why, place: 0 }
    }
}

// The paper's number.
pub fn number_of(r: Refusal) -> u32
    ensures { result ≡ refusal_number r }
{
    r as u32
}

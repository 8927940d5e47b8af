// From an answer in Rattle to what C sees of it: a struct of numbers, since C has no Result.
#![tactic(auto)]

ghost use Rattle.std.specs.Prelude.{◌≡◌, ◌≤◌};
ghost use Rattle.refusals.specs.Answer.{value};
ghost use Rattle.refusals.specs.Said.{reply_said};
ghost use Rattle.formulas.specs.Formula.{InLimits};
ghost use Rattle.checking.specs.CheckAnswers.{check_answer};
ghost use Rattle.replies.specs.Doors.{margins_reply, margins_packed, margins_formula, outputs_told, CheckedInLimits};

use formulas::Header;
use refusals::{Refusal, Refused, number_of};

// The number of the refusal, or 0; how many outputs were written; the refusal's place.
#[repr(C)]
#[derive(Clone, Copy)]
pub struct MarginsReply {
    pub refusal: u32,
    pub outputs: u32,
    pub place: u64,
}

// The number of the refusal, or 0 and F, m, n and l.
#[repr(C)]
#[derive(Clone, Copy)]
pub struct MarginsFormula {
    pub refusal: u32,
    pub scale: u32,
    pub inputs: u16,
    pub outputs: u16,
    pub instructions: u32,
}

// The number of the refusal, or 0; how many bytes were written; the refusal's place. C knows its fields by other names than
// those of `MarginsReply`.
#[repr(C)]
#[derive(Clone, Copy)]
pub struct MarginsPacked {
    pub refusal: u32,
    pub bytes: u32,
    pub place: u64,
}

pub fn replied(r: Result<usize, Refused>) -> MarginsReply
    requires { outputs_told (reply_said r) ≤ 16 }
    ensures { result ≡ margins_reply (reply_said r) }
{
    match r {
        Ok(n) => MarginsReply {
            refusal: 0,
            outputs: n as u32,
            place: 0,
        },
        Err(e) => MarginsReply {
            refusal: number_of(e.why),
            outputs: 0,
            place: e.place as u64,
        },
    }
}

// A reply that tells how many bytes were written.
pub fn packed_told(r: Result<usize, Refused>) -> MarginsPacked
    requires { outputs_told (reply_said r) ≤ 4248 }
    ensures { result ≡ margins_packed (reply_said r) }
{
    match r {
        Ok(n) => MarginsPacked {
            refusal: 0,
            bytes: n as u32,
            place: 0,
        },
        Err(e) => MarginsPacked {
            refusal: number_of(e.why),
            bytes: 0,
            place: e.place as u64,
        },
    }
}

pub fn formula_told(c: Result<Header, Refusal>) -> MarginsFormula
    requires { CheckedInLimits c }
    ensures { result ≡ margins_formula (check_answer c) }
{
    match c {
        Ok(h) => MarginsFormula {
            refusal: 0,
            scale: h.scale,
            inputs: h.inputs as u16,
            outputs: h.outputs as u16,
            instructions: h.instructions as u32,
        },
        Err(r) => MarginsFormula {
            refusal: number_of(r),
            scale: 0,
            inputs: 0,
            outputs: 0,
            instructions: 0,
        },
    }
}

// What a caller brings and lends for a run of any kind, and the walk over a checked formula's instructions on it.
#![tactic(auto)]

ghost use Rattle.std.specs.Prelude.{◌≡◌, ◌<◌};
ghost use Rattle.refusals.specs.Places.{meant_bare};
ghost use Rattle.formulas.specs.Kinds.{Kind, Stands, StandsFor, Puts};
ghost use Rattle.formulas.specs.Lawful.{Lawful};
ghost use Rattle.readings.specs.Judges.{InEach, JudgesAll};
ghost use Rattle.walks.specs.Copying.{Copyable, Copies};
ghost use Rattle.walks.specs.Walks.{Gives, Steppable, Stepped, Walkable, Walks};

use bits::Cursor;
use formulas::{Header, Instruction};
use packed::loaded::load;
use packed::walking::decode_ahead;
use refusals::{Refusal, Refused};

// Readings of one kind, with lists to work in and lists for the outputs, a list for each part of a value.
pub trait Job {
    type Value: Copy;

    ghost kind: { Kind };

    ghost meant: { Self.Value → kind.Value };

    // What the readings are, and what stands in the lists.
    ghost given: { Self → kind.Readings };

    ghost work: { Self → kind.Lists };

    ghost output: { Self → kind.Lists };

    // Which lists they are.
    ghost Names: { Type 0 };

    ghost names: { Self → Names };

    // Whether these are m readings.
    fn test(&self, m: usize) -> Result<(), Refused>
        ensures { JudgesAll m (kind.brought (given self.now)) result };

    // The value that reading i stands for.
    fn read(&self, i: usize) -> Self::Value
        requires { InEach i (kind.brought (given self.now)) }
        ensures { StandsFor kind i (given self.now) (meant result) };

    // How many places each work list has at least.
    fn room(&self) -> usize
        ensures { result ≡ kind.room (work self.now) };

    fn put(&mut self, i: usize, v: Self::Value)
        requires { i < kind.room (work self.old) }
        ensures puts { Puts kind i (meant v) (work self.old) (work self.new) }
        ensures same_given { given self.new ≡ given self.old }
        ensures same_output { output self.new ≡ output self.old }
        ensures same_lists { names self.new ≡ names self.old };

    // One instruction on the first `made` values. Its arms stand once a kind, since the steps of a kind would be another
    // trait, and a ghost member's type cannot name another trait's kind.
    fn step(&self, scale: u32, i: Instruction, made: usize) -> Result<Self::Value, Refusal>
        requires { Steppable kind scale i made (work self.now) }
        ensures { Stepped kind scale i made (work self.now) (meant_bare meant result) };

    fn output_room(&self) -> usize
        ensures { result ≡ kind.room (output self.now) };

    // Value o, as output k.
    fn give(&mut self, k: usize, o: usize)
        requires output_there { k < kind.room (output self.old) }
        requires value_there { o < kind.room (work self.old) }
        ensures gives { Gives kind k o (work self.old) (output self.old) (output self.new) }
        ensures same_given { given self.new ≡ given self.old }
        ensures same_work { work self.new ≡ work self.old }
        ensures same_lists { names self.new ≡ names self.old };

    ghost lawful: { Lawful kind };
}

// The values of m readings that were tested, to the front of the work lists.
pub fn copy<J: Job>(m: usize, job: &mut J)
    requires { Copyable J.kind m (J.given job.old) (J.work job.old) }
    ensures copies { Copies J.kind (J.given job.old) (J.work job.old) (J.work job.new) }
    ensures same_given { J.given job.new ≡ J.given job.old }
    ensures same_output { J.output job.new ≡ J.output job.old }
    ensures same_lists { J.names job.new ≡ J.names job.old }
{
    for i in 0..m {
        let v = job.read(i);
        job.put(i, v);
    }
}

// All instructions of a checked formula, each value behind those before it.
pub fn walk<J: Job>(s: &[u8], h: Header, job: &mut J) -> Result<Cursor, Refused>
    requires { Walkable J.kind s.now h (J.work job.old) }
    ensures walks { Walks J.kind s.now h (J.work job.old) (J.work job.new) result }
    ensures same_given { J.given job.new ≡ J.given job.old }
    ensures same_output { J.output job.new ≡ J.output job.old }
    ensures same_lists { J.names job.new ≡ J.names job.old }
{
    let mut at = Cursor { at: 32 };
    for k in 0..h.instructions {
        let made = h.inputs + k;
        let d = decode_ahead(s, load(s, at));
        match job.step(h.scale, d.instruction, made) {
            Err(why) => return Err(Refused { why, place: k }),
            Ok(v) => job.put(made, v),
        }
        at = d.next;
    }
    Ok(at)
}

// The outputs: the values that the output fields name.
#![tactic(auto)]

ghost use Rattle.std.specs.Prelude.{◌≡◌};
ghost use Rattle.outputs.specs.Picking.{Pickable, Picks};

use bits::Cursor;
use walks::Job;

// The values that the `count` output fields from the cursor on name, to the front of the lists for the outputs.
pub fn pick<J: Job>(s: &[u8], c: Cursor, count: usize, job: &mut J)
    requires { Pickable s.now c count (J.kind.room (J.work job.old)) (J.kind.room (J.output job.old)) }
    ensures picks { Picks J.kind s.now (J.work job.old) (J.output job.old) (J.output job.new) }
    ensures same_given { J.given job.new ≡ J.given job.old }
    ensures same_work { J.work job.new ≡ J.work job.old }
    ensures same_lists { J.names job.new ≡ J.names job.old }
{
    let mut at = c;
    for k in 0..count {
        let (o, next) = at.field(s, 10).unwrap();
        job.give(k, o as usize);
        at = next;
    }
}

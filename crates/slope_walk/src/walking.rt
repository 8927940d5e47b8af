// All instructions of a checked formula.
ghost use Rattle.rules.specs.Lists.{ball_lists};
ghost use Rattle.slope_walk.specs.Grading.{Gradable, Grades};

use crate::steps::{Balls, step};
use bits::Cursor;
use formulas::Header;
use packed::loaded::load;
use packed::walking::decode_ahead;
use refusals::Refused;

// Each row behind those before it, over the balls of a run that was accepted.
pub fn grade(
    s: &[u8],
    h: Header,
    centres: &[i64],
    margins: &[u64],
    slopes: &mut [u64],
) -> Result<Cursor, Refused>
    requires { Gradable s.now h (ball_lists centres.now margins.now) slopes.old }
    ensures { Grades s.now h (ball_lists centres.now margins.now)
        slopes.old slopes.new result }
{
    let mut at = Cursor { at: 32 };
    for k in 0..h.instructions {
        let made = h.inputs + k;
        let d = decode_ahead(s, load(s, at));
        let balls = Balls { centres, margins };
        if let Err(why) = step(h.scale, h.inputs, d.instruction, made, balls, slopes) {
            return Err(Refused { why, place: k });
        }
        at = d.next;
    }
    Ok(at)
}

// The margins that a card gives: each output's sum, and all of them in front of a list.
ghost use Rattle.std.specs.Prelude.{◌≤◌, ◌<◌, length};
ghost use Rattle.card_user.specs.Sums.{Rising, Rises, Summable, AddsUp, SumsUp, Puts};

use crate::Card;
use refusals::{Refusal, Refused};
use rounding::{LIMIT, up};
use whole::magnitude;

// L·s/Q rounded up.
fn rise(scale: u32, slope: u64, margin: u64) -> u64
    requires { Rising scale slope margin }
    ensures { Rises scale slope margin result }
{
    up(scale, slope * margin)
}

impl Card<'_> {
    // Output j's margin, E plus, for each input, L·s/Q rounded up, unless it passes M.
    fn margin(self, j: usize, margins: &[i64]) -> Option<u64>
        requires sums { Summable self margins.now }
        requires output { j < self.outputs }
        ensures { AddsUp self.entry margins.now j result }
    {
        let mut sum = self.static_margins[j];
        for i in 0..self.inputs {
            sum += rise(
                self.scale,
                self.slopes[j * self.inputs + i],
                magnitude(margins[i]),
            );
            if LIMIT < sum {
                return None;
            }
        }
        Some(sum)
    }

    // All of them to the front of `out`, or the first output whose margin passes M.
    fn margins_into(self, margins: &[i64], out: &mut [u64]) -> Result<(), Refused>
        requires { Summable self margins.now × (self.outputs ≤ length out.old) }
        ensures { SumsUp self.entry margins.now out.old out.new result }
    {
        for j in 0..self.outputs {
            let Some(sum) = self.margin(j, margins) else {
                return Err(Refused {
                    why: Refusal::OutOfReach,
                    place: j,
                });
            };
            out[j] = sum;
        }
        Ok(())
    }

    // The sums are made aside, so that a refusal writes nothing.
    pub(crate) fn put_margins(self, margins: &[i64], out: &mut [u64]) -> Result<usize, Refused>
        requires { Summable self margins.now × (self.outputs ≤ length out.old) }
        ensures { Puts self.entry margins.now out.old out.new result }
    {
        let n = self.outputs;
        let mut aside = [0u64; 16];
        self.margins_into(margins, &mut aside)?;
        out[..n].copy_from_slice(&aside[..n]);
        Ok(n)
    }
}

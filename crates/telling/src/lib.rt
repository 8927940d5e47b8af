// How a job ended, told: the first line that the program prints, and how many lines follow.
#![tactic(auto)]

ghost use Rattle.std.specs.Prelude.{◌≡◌, ◌++◌, ◌+◌, ◌≤◌, length};
ghost use Rattle.refusals.specs.Refusals.{refusal_number};
ghost use Rattle.printing.specs.Decimal.{decimal};
ghost use Rattle.lists.specs.Written.{Wrote};
ghost use Rattle.telling.specs.Program.{place_text, refused_text, ok_text};
ghost use Rattle.telling.specs.Telling.{headline, output_count};

use printing::bytes::{put, put_word};
use printing::numbers::{put_marked, put_number};
use refusals::{Refused, number_of};

// A word and a number, to the front of `out`.
fn put_told(word: &[u8], n: u64, out: &mut [u8]) -> usize
    requires { length word.now + 20 ≤ length out.old }
    ensures { Wrote (word.now ++ decimal n) 0 out.old out.new result }
{
    let told = put_word(word, out, 0);
    put_number(n, out, told)
}

fn put_ok(n: u64, out: &mut [u8]) -> usize
    requires { 50 ≤ length out.old }
    ensures { Wrote (ok_text n) 0 out.old out.new result }
{
    let counted = put_told(b"ok ", n, out);
    put(b'\n', out, counted)
}

// A space, a place and the end of the line.
fn put_place(place: usize, out: &mut [u8], at: usize) -> usize
    requires { at + 22 ≤ length out.old }
    ensures { Wrote (place_text place) at out.old out.new result }
{
    let placed = put_marked(b' ', place as u64, out, at);
    put(b'\n', out, placed)
}

pub fn put_refused(refused: Refused, out: &mut [u8]) -> usize
    requires { 50 ≤ length out.old }
    ensures { Wrote (refused_text (refusal_number refused.why) refused.place) 0 out.old out.new result }
{
    let numbered = put_told(b"refused ", number_of(refused.why) as u64, out);
    put_place(refused.place, out, numbered)
}

pub fn put_headline(reply: Result<usize, Refused>, out: &mut [u8]) -> usize
    requires { 50 ≤ length out.old }
    ensures { Wrote (headline reply) 0 out.old out.new result }
{
    match reply {
        Ok(n) => put_ok(n as u64, out),
        Err(refused) => put_refused(refused, out),
    }
}

// How many outputs there are: after a refusal none.
pub fn count_of(reply: Result<usize, Refused>) -> usize
    ensures { result ≡ output_count reply }
{
    reply.unwrap_or(0)
}

// The program: standard input in, the answer out. All that matters is in the proved library `text`.
#![tactic(auto)]

ghost use Rattle.std.specs.Prelude.{◌≡◌, ◌≤◌, length, IfOk};

use std::io::{self, Read, Write};
use text::answering::answer;

// To the front of `input`, until it is full or there is no more.
fn read_full<R: Read>(from: &mut R, input: &mut [u8]) -> io::Result<usize>
    ensures { IfOk result (λ n. n ≤ length input.new) }
{
    let mut n = 0;
    while n < input.len() {
        let more = from.read(&mut input[n..])?;
        if more == 0 {
            break;
        }
        n += more;
    }
    Ok(n)
}

// 16 KiB, and a byte that shows that there is more.
fn main(rt: HostRuntime) -> io::Result<()> {
    let mut input = [0; 16385];
    let mut out = [0; 2048];
    let n = read_full(&mut rt.stdin(), &mut input)?;
    let m = answer(&input[..n], &mut out);
    io::writer(&rt).write_all(&out[..m])
}

// Bytes in lower-case hex.
#![tactic(auto)]

ghost use Rattle.std.specs.Prelude.{◌≡◌, ◌+◌, ◌<◌, ◌≤◌, length, IfSome};
ghost use Rattle.parsing.specs.ParsingAnswers.{Gathers};
ghost use Rattle.hex_bytes.specs.Hex.{hex_digit, hex_byte, hex, hex_front};

#[tactic(auto, unfolding(crate::specs::Hex::hex_digit))]
fn digit_of(b: u8) -> Option<u8>
    ensures is { result ≡ hex_digit b }
    ensures small { IfSome result (λ x. x < 16) }
{
    match b {
        b'0'..=b'9' => Some(b - b'0'),
        b'a'..=b'f' => Some(b - b'a' + 10),
        _ => None,
    }
}

// The byte of two digits.
#[tactic(auto, unfolding(crate::specs::Hex::hex_byte))]
fn byte(a: u8, b: u8) -> Option<u8>
    ensures { result ≡ hex_byte a b }
{
    Some(16 * digit_of(a)? + digit_of(b)?)
}

// The bytes that the text stands for, to the front of `out`.
pub fn read(s: &[u8], out: &mut [u8]) -> Option<usize>
    requires { length s.now ≤ length out.old + length out.old }
    ensures { Gathers (hex s.now) (hex_front s.now)
        out.old out.new result }
{
    for n in 0..s.len() / 2 {
        out[n] = byte(s[2 * n], s[2 * n + 1])?;
    }
    if s.len() % 2 == 0 {
        Some(s.len() / 2)
    } else {
        None
    }
}

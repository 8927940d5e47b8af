// Decimal numbers of 1 to 10 digits after an optional minus.
#![tactic(auto)]

ghost use Rattle.std.specs.Prelude.{◌≡◌};
ghost use Rattle.parsing.specs.Number.{number_meant};
ghost use Rattle.parsing.specs.ParsingAnswers.{ReadsDigits};

fn read_digits(s: &[u8]) -> Option<u64>
    ensures { ReadsDigits s.now result }
{
    if s.is_empty() || s.len() > 10 {
        return None;
    }
    let mut n = 0;
    for b in s {
        if !b.is_ascii_digit() {
            return None;
        }
        n = 10 * n + u64::from(*b - b'0');
    }
    Some(n)
}

pub fn read(s: &[u8]) -> Option<i64>
    ensures { result ≡ number_meant s.now }
{
    match s.strip_prefix(b"-".as_slice()) {
        Some(digits) => Some(-(read_digits(digits)? as i64)),
        None => Some(read_digits(s)? as i64),
    }
}

// The first place of a byte, and text cut there.
ghost use Rattle.std.specs.Prelude.{◌≡◌, MatchOption};
ghost use Rattle.parsing.specs.Cut.{cut, in_halves};
ghost use Rattle.parsing.specs.ParsingAnswers.{Finds};

pub fn find(s: &[u8], b: u8) -> Option<usize>
    ensures { Finds b s.now result }
{
    s.iter().position(|x| *x == b)
}

// What stands before the first place of a byte, and what follows it.
pub fn halves(s: &[u8], b: u8) -> Option<(&[u8], &[u8])>
    ensures { MatchOption result (cut b s.now ≡ None) (λ p. cut b s.now ≡ Some (in_halves p.0.now p.1.now)) }
{
    let i = find(s, b)?;
    Some((&s[..i], &s[i + 1..]))
}

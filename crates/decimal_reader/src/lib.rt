// Decimal numbers and margins as they are written, read to their ends.
#![tactic(auto)]

ghost use Rattle.std.specs.Prelude.{◌≡◌};
ghost use Rattle.decimal_texts.specs.Texts.{minus_first};
ghost use Rattle.decimal_reader.specs.Answers.{TellsMargin, TellsNumber};

use numerals::{Decimal, Wrong};

// A text without a minus.
pub fn margin_of(text: &[u8]) -> Result<Decimal<u64>, Wrong>
    ensures { TellsMargin text.now result }
{
    let front = numerals::read(text, 0)?;
    if front.end < text.len() {
        return Err(Wrong { place: front.end });
    }
    Ok(front.number)
}

fn minus_first(text: &[u8]) -> bool
    ensures { result ≡ minus_first text.now }
{
    matches!(text, [b'-', ..])
}

// A text with a minus or without.
pub fn number_of(text: &[u8]) -> Result<Decimal<i64>, Wrong>
    ensures { TellsNumber text.now result }
{
    if !minus_first(text) {
        let above = margin_of(text)?;
        return Ok(Decimal {
            count: above.count as i64,
            places: above.places,
        });
    }
    match margin_of(&text[1..]) {
        Ok(below) => Ok(Decimal {
            count: -(below.count as i64),
            places: below.places,
        }),
        Err(wrong) => Err(Wrong {
            place: wrong.place + 1,
        }),
    }
}

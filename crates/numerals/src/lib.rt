// Numbers as they are written: 1 to 9 digits in all, with an optional point between digits; and their units.
#![tactic(auto)]

ghost use Rattle.std.specs.Prelude.{◌≡◌, ◌+◌, ◌-◌, ◌^◌, ◌≤◌, ◌<◌, length, drop};
ghost use Rattle.rules.specs.Numbers.{top_scale};
ghost use Rattle.numerals.specs.Digits.{TellsDigit, MustBeDigit, fraction_on, point_on, whole_on, reading};
ghost use Rattle.numerals.specs.Digits.{Reads, SoFar};
ghost use Rattle.numerals.specs.Places.{placed};
ghost use Rattle.numerals.specs.Units.{units, is_exact};

use refusals::{Refusal, Refused};

// A decimal number as it is written: how many of 10^-places it is.
#[derive(Clone, Copy)]
pub struct Decimal<T> {
    pub count: T,
    pub places: u32,
}

// The number in front of bytes, and the place behind it.
#[derive(Clone, Copy)]
pub struct Numeral {
    pub number: Decimal<u64>,
    pub end: usize,
}

// The place at which a text goes wrong: to `read`, where a digit must stand and none does.
#[derive(Clone, Copy)]
pub struct Wrong {
    pub place: usize,
}

// What was read, or else a refusal at the place where the text goes wrong.
pub fn placed<T>(read: Result<T, Wrong>, why: Refusal) -> Result<T, Refused>
    ensures { result ≡ placed why read }
{
    read.map_err(|wrong| Refused {
        why,
        place: wrong.place,
    })
}

fn digit_of(b: u8) -> Option<u64>
    ensures { TellsDigit b result }
{
    match b {
        b'0'..=b'9' => Some((b - b'0') as u64),
        _ => None,
    }
}

// The digit that must stand at a place.
fn digit_at(text: &[u8], place: usize) -> Result<u64, Wrong>
    ensures { MustBeDigit text.now place result }
{
    text.get(place)
        .and_then(|b| digit_of(*b))
        .ok_or(Wrong { place })
}

// Digits behind a point, one of which was read, and so many more may follow.
fn fraction(text: &[u8], from: usize, left: usize, first: u64) -> Numeral
    requires { SoFar text.now from left 1 first }
    ensures { Reads text.now from (fraction_on left 1 first (drop from text.now)) (Ok result) }
{
    let mut count = first;
    let mut places = 1;
    let end = text.len().min(from + left);
    for at in from..end {
        let Some(d) = digit_of(text[at]) else {
            return Numeral {
                number: Decimal { count, places },
                end: at,
            };
        };
        count = 10 * count + d;
        places += 1;
    }
    Numeral {
        number: Decimal { count, places },
        end,
    }
}

// Digits and a point, which does not stand yet; one digit was read, and so many more may follow.
fn whole(text: &[u8], from: usize, left: usize, first: u64) -> Result<Numeral, Wrong>
    requires { SoFar text.now from left 0 first }
    ensures { Reads text.now from (whole_on left first (drop from text.now)) result }
{
    let mut count = first;
    let until = from + left;
    let end = text.len().min(until);
    for at in from..end {
        if text[at] == b'.' {
            return pointed(text, at + 1, until - at - 1, count);
        }
        let Some(d) = digit_of(text[at]) else {
            return Ok(Numeral {
                number: Decimal { count, places: 0 },
                end: at,
            });
        };
        count = 10 * count + d;
    }
    Ok(Numeral {
        number: Decimal { count, places: 0 },
        end,
    })
}

// Right behind a point: a digit must stand, and so many more may follow it.
fn pointed(text: &[u8], from: usize, left: usize, count: u64) -> Result<Numeral, Wrong>
    requires { SoFar text.now from (left + 1) 0 count }
    ensures { Reads text.now from (point_on left count (drop from text.now)) result }
{
    let d = digit_at(text, from)?;
    Ok(fraction(text, from + 1, left, 10 * count + d))
}

// The number that stands from a place on, as long as it goes.
pub fn read(text: &[u8], at: usize) -> Result<Numeral, Wrong>
    requires { at ≤ length text.now }
    ensures { Reads text.now (at + 1) (reading (drop at text.now)) result }
{
    let d = digit_at(text, at)?;
    whole(text, at + 1, 8, d)
}

pub fn power_of_ten(e: u32) -> u64
    requires { e ≤ 9 }
    ensures { result ≡ 10 ^ e }
{
    10u64.pow(e)
}

#[derive(Clone, Copy)]
pub struct Units {
    pub count: u64,
    pub exact: bool,
}

// A number in units: rounded with ties up, and whether nothing was lost.
pub fn units_of(scale: u32, number: Decimal<u64>) -> Units
    requires { (scale ≤ top_scale) × (number.count < 10 ^ 9) × (number.places ≤ 8) }
    ensures { (result.count ≡ units scale number.count number.places)
        × (result.exact ≡ is_exact scale number.count number.places) × (result.count < 2 ^ 60) }
{
    let ten = power_of_ten(number.places);
    let whole = number.count << scale;
    let count = (2 * whole + ten) / (2 * ten);
    Units {
        count,
        exact: count * ten == whole,
    }
}

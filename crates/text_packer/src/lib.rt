// A text packed: the scale and the number of inputs are tested, the text is read, then its instructions' constants and
// their number, and the packer writes them.
#![tactic(auto)]

ghost use Rattle.std.specs.Prelude.{◌≡◌, ◌≤◌, ◌<◌, ◌^◌, length, take};
ghost use Rattle.std.specs.List.{list_all};
ghost use Rattle.text_packer.specs.WordNumbers.{Fields, word_fits, Permitted};
ghost use Rattle.text_packer.specs.WordLists.{words_parts};
ghost use Rattle.text_packing.specs.TextPacking.{PacksText};
ghost use Rattle.packing.specs.Raw.{handed};
ghost use Rattle.packing.specs.PackAnswers.{Packs};

use expression_parser::parse;
use packer::pack;
use refusals::{Refusal, Refused};
use whole::below;

// Whether a word's constant is at most M, with its margin of 1 if it has one.
fn fits(word: u64) -> bool
    ensures { result ≡ word_fits word }
{
    match word % 8 {
        0 => word / 8 <= 0x7FFF_FFFF,
        5 => word / 8 + 1 <= 0x7FFF_FFFF,
        _ => true,
    }
}

fn all_fit(words: &[u64], count: usize) -> bool
    ensures { result ≡ list_all word_fits (take count words.now) }
{
    words.iter().take(count).all(|word| fits(*word))
}

// The first `count` words. The constants of those that there are are tested, and then whether there are so many.
fn permitted(words: &[u64], count: usize) -> Result<&[u64], Refusal>
    ensures { Permitted words.now count result }
{
    if !all_fit(words, count) {
        return Err(Refusal::Constant);
    }
    words.get(..count).ok_or(Refusal::Count)
}

// What stands above the code: a constant, a centre, whose margin is 1, or operands of ten bits.
fn fields_of(word: u64) -> (u64, u64)
    ensures { Fields word result }
{
    let fields = word / 8;
    match word % 8 {
        0 => (fields, 0),
        5 => (fields, 1),
        _ => (fields % 1024, fields / 1024),
    }
}

// The words as the packer's lists, with the one output. A list must be filled before it is written, so few words go into
// shorter lists.
fn pack_words<const N: usize>(
    scale: i64,
    inputs: i64,
    value: usize,
    words: &[u64],
    out: &mut [u8],
) -> Result<usize, Refused>
    requires { (length words.now ≤ N) × (N ≤ 512) × (value < 2 ^ 63) }
    ensures { Packs (handed scale inputs (words_parts value words.now)) out.old out.new result }
{
    let mut codes = [0; N];
    let mut firsts = [0; N];
    let mut seconds = [0; N];
    for (k, word) in words.iter().enumerate() {
        let (first, second) = fields_of(*word);
        codes[k] = (*word % 8) as i64;
        firsts[k] = first as i64;
        seconds[k] = second as i64;
    }
    let count = words.len();
    pack(
        scale,
        inputs,
        &codes[..count],
        &firsts[..count],
        &seconds[..count],
        &[value as i64],
        out,
    )
}

// The packed bytes of a text in front of `out` and how many they are, or the refusal and its place.
pub fn pack_text(scale: i64, inputs: i64, text: &[u8], out: &mut [u8]) -> Result<usize, Refused>
    ensures { PacksText scale inputs text.now out.old out.new result }
{
    if !below(scale, 31) {
        return Err(Refusal::Scale.into());
    }
    if !below(inputs, 17) {
        return Err(Refusal::Count.into());
    }
    let mut words = [0u64; 512];
    let made = parse(text, scale as u32, inputs as usize, &mut words)?;
    let words = permitted(&words, made.count)?;
    if words.len() <= 64 {
        pack_words::<64>(scale, inputs, made.value, words, out)
    } else {
        pack_words::<512>(scale, inputs, made.value, words, out)
    }
}

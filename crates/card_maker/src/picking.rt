// The outputs' numbers, out of those of all values.
ghost use Rattle.std.specs.Prelude.{◌≡◌};
ghost use Rattle.lists.specs.Over.{over};
ghost use Rattle.cards.specs.Card.{flat};
ghost use Rattle.card_maker.specs.Parts.{Pickable, picked_numbers, RowsPickable, picked_rows};
ghost use Rattle.card_maker.specs.Parts.{Writable, Writes, card_lists};

use bits::Cursor;
use filling::fill_outputs;
use formulas::Header;
use whole::magnitude;

// One number an output.
fn pick_numbers(outputs: &[i64], n: usize, work: &[u64], out: &mut [u64])
    requires { Pickable outputs.now n work.now out.old }
    ensures { out.new ≡ over (picked_numbers outputs.now n work.now) out.old }
{
    for k in 0..n {
        out[k] = work[magnitude(outputs[k]) as usize];
    }
}

// m slopes an output, output by output.
fn pick_rows(outputs: &[i64], n: usize, m: usize, work: &[u64], out: &mut [u64])
    requires { RowsPickable outputs.now n m work.now out.old }
    ensures { out.new
        ≡ over (flat (picked_rows outputs.now n m work.now)) out.old }
{
    for k in 0..n {
        let o = magnitude(outputs[k]) as usize;
        let row = &work[o * m..(o + 1) * m];
        out[k * m..(k + 1) * m].copy_from_slice(row);
    }
}

// Both lists of a card, from the cursor at the outputs: a margin an output, and a slope an output and input.
pub(crate) fn write(
    s: &[u8],
    h: Header,
    c: Cursor,
    margins: &[u64],
    slopes: &[u64],
    static_margins: &mut [u64],
    card_slopes: &mut [u64],
)
    requires { Writable s.now h c margins.now slopes.now
        (card_lists static_margins.old card_slopes.old) }
    ensures { Writes s.now h margins.now slopes.now
        (card_lists static_margins.old card_slopes.old)
        (card_lists static_margins.new card_slopes.new) }
{
    let mut outputs: [i64; 16] = [0; 16];
    fill_outputs(s, c, h.outputs, &mut outputs);
    pick_numbers(&outputs, h.outputs, margins, static_margins);
    pick_rows(&outputs, h.outputs, h.inputs, slopes, card_slopes);
}

// A bit cursor over bytes. A field is gathered from its bytes at once, whatever bit it starts at.
#![tactic(auto)]

ghost use Rattle.std.specs.Prelude.{◌≡◌, ◌+◌, ◌-◌, ◌*◌, ◌^◌, ◌≤◌, ◌<◌, length, take, drop};
ghost use Rattle.bits.specs.Bits.{bits, number, IsWindow};
ghost use Rattle.bits.specs.Reader.{field};
ghost use Rattle.bits.specs.Fields.{before, field_answer, Advanced, IsAhead, EndsAt};

// So many bits from the first.
#[derive(Clone, Copy)]
pub struct Cursor {
    pub at: usize,
}

// Eight bytes as one number, the first on top. A compiler sees one load in a tree of sums, and none in a long chain.
fn joined(a: u64, b: u64, c: u64, d: u64, e: u64, f: u64, g: u64, h: u64) -> u64
    requires { (a < 256) × (b < 256) × (c < 256) × (d < 256)
        × (e < 256) × (f < 256) × (g < 256) × (h < 256) }
    ensures { result ≡ a * 2 ^ 56 + b * 2 ^ 48 + c * 2 ^ 40 + d * 2 ^ 32
        + e * 2 ^ 24 + f * 2 ^ 16 + g * 2 ^ 8 + h }
{
    let upper = (a * 0x100_0000_0000_0000 + b * 0x1_0000_0000_0000)
        + (c * 0x100_0000_0000 + d * 0x1_0000_0000);
    let lower = (e * 0x100_0000 + f * 0x1_0000) + (g * 0x100 + h);
    upper + lower
}

fn wide(b: u8) -> u64
    ensures { (result ≡ b) × (result < 256) }
{
    b as u64
}

// The same of bytes that may end, from the last to the first: the first is put on top of the others.
fn gathered(s: &[u8], i: usize) -> u64
    ensures { IsWindow s.now i result }
{
    let mut v = 0;
    for k in (i..s.len()).rev() {
        v = wide(s[k]) * 0x100_0000_0000_0000 + v / 256;
    }
    v
}

// The same near the end: four bytes that are there are one load too.
fn rest(s: &[u8], i: usize) -> u64
    requires { i ≤ 2 ^ 32 }
    ensures { IsWindow s.now i result }
{
    if s.len() < i + 4 {
        return gathered(s, i);
    }
    let four = (wide(s[i]) * 0x100_0000 + wide(s[i + 1]) * 0x1_0000)
        + (wide(s[i + 2]) * 0x100 + wide(s[i + 3]));
    four * 0x1_0000_0000 + gathered(s, i + 4) / 0x1_0000_0000
}

// The eight bytes from the i-th on, as one number; all of them are there.
fn eight(s: &[u8], i: usize) -> u64
    requires { (i ≤ 2 ^ 32) × (i + 8 ≤ length s.now) }
    ensures { IsWindow s.now i result }
{
    joined(
        wide(s[i]),
        wide(s[i + 1]),
        wide(s[i + 2]),
        wide(s[i + 3]),
        wide(s[i + 4]),
        wide(s[i + 5]),
        wide(s[i + 6]),
        wide(s[i + 7]),
    )
}

// The same; past the end they are 0.
fn window(s: &[u8], i: usize) -> u64
    requires { i ≤ 2 ^ 32 }
    ensures { IsWindow s.now i result }
{
    if i + 8 <= s.len() {
        eight(s, i)
    } else {
        rest(s, i)
    }
}

// The field of so many bits that ends at a place, with eight bytes there up to it.
pub fn ending(s: &[u8], end: usize, width: u32) -> u64
    requires { EndsAt s.now end width }
    ensures { result ≡ number (take width (drop (end - width) (bits s.now))) }
{
    let last = (end + 7) / 8;
    let behind = 8 * last - end;
    (eight(s, last - 8) >> behind as u32) % (1u64 << width)
}

// The bits from a cursor on, the first on top: a place in them is the same whatever bit the cursor stands at.
pub fn ahead(s: &[u8], c: Cursor) -> u64
    requires { c.at ≤ 2 ^ 32 }
    ensures { IsAhead s.now c result }
{
    let at = c.at;
    window(s, at / 8) << (at % 8) as u32
}

impl Cursor {
    // The field of so many bits from here, with the cursor past it, unless the bytes end inside it.
    pub fn field(self, s: &[u8], width: u32) -> Option<(u64, Cursor)>
        requires { (1 ≤ width) × (width ≤ 32) × (self.at ≤ 2 ^ 32) }
        ensures { (field_answer s.now result ≡ field width (before s.now self))
            × Advanced self width result }
    {
        let end = self.at + width as usize;
        if s.len() < (end + 7) / 8 {
            return None;
        }
        let n = (ahead(s, self) >> (64 - width)) % (1u64 << width);
        Some((n, Cursor { at: end }))
    }
}

// A cursor that carries the bits it has loaded. The format's widths stand here once, by name.
ghost use Rattle.std.specs.Prelude.{◌≡◌, ◌*◌, ◌^◌, ◌≤◌, ltb, length};
ghost use Rattle.packed.specs.Loading.{place_of, taken, Loads};

use bits::Cursor;

pub const CODE: u32 = 3;

pub const OPERAND: u32 = 10;

pub const CONSTANT: u32 = 32;

// So many bits from the first, and the bits from there on, the first on top.
#[derive(Clone, Copy)]
pub struct Loaded {
    pub at: usize,
    pub ahead: u64,
}

#[derive(Clone, Copy)]
pub struct Taken {
    pub field: u64,
    pub rest: Loaded,
}

pub fn load(s: &[u8], c: Cursor) -> Loaded
    requires { c.at ≤ 2 ^ 30 }
    ensures { Loads s.now c result }
{
    Loaded {
        at: c.at,
        ahead: bits::ahead(s, c),
    }
}

impl Loaded {
    // The field of so many bits, with the cursor past it.
    pub fn take<const WIDTH: u32>(self) -> Taken
        requires { (1 ≤ WIDTH) × (WIDTH ≤ 32) × (self.at ≤ 2 ^ 31) }
        ensures { result ≡ taken WIDTH self }
    {
        Taken {
            field: self.ahead >> (64 - WIDTH),
            rest: Loaded {
                at: self.at + WIDTH as usize,
                ahead: self.ahead << WIDTH,
            },
        }
    }

    // Whether the bytes end before the cursor.
    pub fn ended(self, s: &[u8]) -> bool
        requires { self.at ≤ 2 ^ 31 }
        ensures { result ≡ ltb (8 * length s.now) self.at }
    {
        s.len() < (self.at + 7) / 8
    }

    pub fn place(self) -> Cursor
        ensures { result ≡ place_of self }
    {
        Cursor { at: self.at }
    }
}

// A writer of bits by value. It gathers them in a word and stores bytes as they fill, four at a time.
#![tactic(auto)]

ghost use Rattle.lists.specs.Written.{Wrote};
ghost use Rattle.writing.specs.Pending.{MayPut, Puts, MayFinish, last_bytes};

// The place of the next byte, and the bits that wait for it: the low `count` of `held`.
#[derive(Clone, Copy)]
pub struct Writer {
    pub at: usize,
    pub count: u32,
    pub held: u64,
}

impl Writer {
    // A field of so many bits.
    pub fn put(self, out: &mut [u8], width: u32, n: u64) -> Writer
        requires { MayPut self width n out.old }
        ensures { Puts self width n out.old out.new result }
    {
        let held = (self.held << width) + n;
        let count = self.count + width;
        let at = self.at;
        if count < 32 {
            return Writer { at, count, held };
        }
        let rest = count - 32;
        let word = ((held >> rest) % 0x1_0000_0000) as u32;
        out[at..at + 4].copy_from_slice(&word.to_be_bytes());
        Writer {
            at: at + 4,
            count: rest,
            held,
        }
    }

    // Zeros up to the end of a byte, and all bytes that wait; the place after them.
    pub fn finish(self, out: &mut [u8]) -> usize
        requires { MayFinish self out.old }
        ensures { Wrote (last_bytes self.count self.held) self.at
            out.old out.new result }
    {
        let bytes = self.count.div_ceil(8);
        let padding = 8 * bytes - self.count;
        let held = self.held << padding;
        let end = self.at + bytes as usize;
        // As one copy these few bytes would be a call of memcpy, which takes longer.
        for k in (0..bytes).rev() {
            out[end - 1 - k as usize] = ((held >> (8 * k)) % 256) as u8;
        }
        end
    }
}

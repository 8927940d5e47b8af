// Bytes.
ghost use Rattle.std.specs.Prelude.{[], ◌∷◌, ◌+◌, ◌≤◌, ◌<◌, length};
ghost use Rattle.lists.specs.Written.{Wrote};

pub fn put(b: u8, out: &mut [u8], at: usize) -> usize
    requires { at < length out.old }
    ensures { Wrote (b ∷ []) at out.old out.new result }
{
    out[at] = b;
    at + 1
}

pub fn put_word(w: &[u8], out: &mut [u8], at: usize) -> usize
    requires { at + length w.now ≤ length out.old }
    ensures { Wrote w.now at out.old out.new result }
{
    let next = at + w.len();
    out[at..next].copy_from_slice(w);
    next
}

// Slices that a caller lends for an answer.
ghost use Rattle.std.specs.Prelude.{◌≡◌, length, replicate, set};

// Leaves only zeros. Crate text has its own for bytes: no bound of std says in a contract what zero is.
pub fn clear(out: &mut [u32])
    ensures { out.new ≡ replicate (length out.old) 0 }
{
    out.fill(0);
}

// Writes a word or a byte where there is room for it.
pub fn put<T: Copy>(out: &mut [T], at: usize, w: T)
    ensures { out.new ≡ set out.old at w }
{
    if at < out.len() {
        out[at] = w;
    }
}

// Lines of tokens that part by one blank and end in byte 10.
ghost use Rattle.std.specs.Prelude.{◌≡◌, ◌+◌, ◌≤◌, length};
ghost use Rattle.std.proofs.lemmas.List.Edits.{sets};
ghost use Rattle.text.specs.Line.{rest_text, line_text};
ghost use Rattle.text.specs.Told.Told.{LineTold};

use crate::token::{read_token, write_token};
use term::lent::put;

pub const END: u8 = b'\n';

pub const BLANK: u8 = b' ';

// Reads a line of 1 to `most` tokens from `at` on; its words go into `out` from `to` on. So many words and the offset after the line.
pub fn read_line(
    text: &[u8],
    at: usize,
    most: usize,
    out: &mut [u32],
    to: usize,
) -> Option<(usize, usize)>
    requires { (most ≤ 4096) × (to ≤ 65536) }
    ensures { LineTold most text.now at to out.old out.new result }
{
    let mut i = at;
    for n in 0..most {
        let (w, end) = read_token(text, i)?;
        put(out, to + n, w);
        match *text.get(end)? {
            END => return Some((n + 1, end + 1)),
            BLANK => i = end + 1,
            _ => return None,
        }
    }
    None
}

// Writes the tokens of a line after its first, and its end; the offset after it.
fn write_rest(words: &[u32], out: &mut [u8], at: usize) -> usize
    requires { (length words.now ≤ 4096) × (at ≤ 2000000) }
    ensures { (result ≡ at + length (rest_text words.now)) × (out.new ≡ sets out.old at (rest_text words.now)) }
{
    let mut to = at;
    for word in words {
        put(out, to, BLANK);
        to = write_token(out, to + 1, *word);
    }
    put(out, to, END);
    to + 1
}

// Writes a line; the offset after it.
pub fn write_line(words: &[u32], out: &mut [u8], at: usize) -> usize
    requires { (length words.now ≤ 4096) × (at ≤ 1000000) }
    ensures { (result ≡ at + length (line_text words.now)) × (out.new ≡ sets out.old at (line_text words.now)) }
{
    if words.is_empty() {
        put(out, at, END);
        return at + 1;
    }
    let to = write_token(out, at, words[0]);
    write_rest(&words[1..], out, to)
}

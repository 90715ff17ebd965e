// Keys that lines begin with, and the lines of a key and a number or of a key and tokens.
ghost use Rattle.std.specs.Prelude.{◌≡◌, ◌≤◌, length};
ghost use Rattle.text.specs.Told.BookTold.{KeyTold, NumberLineTold, SideTold};

use crate::line::{END, read_line};
use crate::number::read_number;
use book::limits::MOST_SIDE;

// The offset after the key that stands at `at`.
pub fn read_key(text: &[u8], at: usize, key: &[u8]) -> Option<usize>
    requires { at ≤ length text.now }
    ensures { KeyTold key.now text.now at result }
{
    if !text[at..].starts_with(key) {
        return None;
    }
    Some(at + key.len())
}

// Reads a line of a key and a number; the number and the offset after the line.
pub fn read_number_line(text: &[u8], at: usize, key: &[u8], most: u32) -> Option<(u32, usize)>
    requires { (at ≤ length text.now) × (most ≤ 65535) }
    ensures { NumberLineTold key.now most text.now at result }
{
    let a = read_key(text, at, key)?;
    let (n, end) = read_number(text, a, most)?;
    if *text.get(end)? != END {
        return None;
    }
    Some((n, end + 1))
}

// Reads a line of a key and the tokens of a side; its words go into `out` from `to` on.
pub fn read_side(
    text: &[u8],
    at: usize,
    key: &[u8],
    out: &mut [u32],
    to: usize,
) -> Option<(usize, usize)>
    requires { (at ≤ length text.now) × (to ≤ 65536) }
    ensures { SideTold key.now text.now at to out.old out.new result }
{
    let a = read_key(text, at, key)?;
    read_line(text, a, MOST_SIDE, out, to)
}

// Numbers in a text: decimal, without leading zeros, within their ranges.
ghost use Rattle.std.specs.Prelude.{◌≡◌, ◌+◌, ◌≤◌, length};
ghost use Rattle.std.proofs.lemmas.List.Edits.{sets};
ghost use Rattle.text.specs.Number.{decimal};
ghost use Rattle.text.specs.Told.Told.{DigitsTold, NumberTold};

use term::lent::put;

const ZERO: u8 = b'0';

// Numbers are decimal.
const BASE: u32 = 10;

// The number whose digits stand from `at` on, as many as there are, and the offset after them.
fn read_digits(text: &[u8], at: usize, most: u32) -> Option<(u32, usize)>
    requires { (at ≤ length text.now) × (most ≤ 65535) }
    ensures { DigitsTold most text.now at result }
{
    let mut n: u32 = 0;
    for (i, b) in text[at..].iter().enumerate() {
        if !b.is_ascii_digit() {
            return Some((n, at + i));
        }
        n = n * BASE + (*b - ZERO) as u32;
        if most < n {
            return None;
        }
    }
    Some((n, text.len()))
}

// The number that stands at `at`, and the offset after it. A digit 0 in front is the whole number.
pub fn read_number(text: &[u8], at: usize, most: u32) -> Option<(u32, usize)>
    requires { most ≤ 65535 }
    ensures { NumberTold most text.now at result }
{
    let b = *text.get(at)?;
    if !b.is_ascii_digit() {
        return None;
    }
    if b == ZERO {
        return Some((0, at + 1));
    }
    read_digits(text, at, most)
}

// Writes the digits of a number from `at` on; the offset after them.
pub fn write_number(out: &mut [u8], at: usize, n: u32) -> usize
    requires { at ≤ 4000000 }
    ensures { (result ≡ at + length (decimal n)) × (out.new ≡ sets out.old at (decimal n)) }
{
    if n < BASE {
        put(out, at, ZERO + n as u8);
        return at + 1;
    }
    let last = write_number(out, at, n / BASE);
    put(out, last, ZERO + (n % BASE) as u8);
    last + 1
}

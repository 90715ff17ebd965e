// The part of a term that a list of words begins with: where it ends, and its body.
ghost use Rattle.std.specs.Prelude.{◌≡◌, ◌≤◌, length};
ghost use Rattle.term.specs.Part.{part_end, body_of, has_body, same_body, body_answer, body_words, below_came, write_below_gives};

use crate::check::{MOST_LEVELS, MOST_WORDS};
use crate::image::{Way, renumber_row};
use crate::lent::clear;
use crate::list::good_list;
use crate::same::left_open;
use crate::word::count_of;

// Why no body was written.
#[derive(Clone, Copy)]
pub enum Unwritten {
    NoBody,
    Short,
}

// Where the part that the words begin with ends, by the counts alone; the length where the words run out.
pub fn part_end(words: &[u32]) -> usize
    ensures { result ≡ part_end words.now }
{
    let mut left: usize = 1;
    for (at, w) in words.iter().enumerate() {
        if left == 0 {
            return at;
        }
        if words.len() - at < left {
            break;
        }
        left = count_of(*w) as usize + (left - 1);
    }
    words.len()
}

// Whether the part that the words begin with has a body under d abstractions with this list.
pub fn is_closed(words: &[u32], d: u32, list: &[u32]) -> bool
    ensures { result ≡ has_body d list.now words.now }
{
    if !good_list(d, list) {
        return false;
    }
    let mut unused = [0u32; 1];
    match renumber_row(
        Way::ToBody,
        d,
        list,
        0,
        MOST_LEVELS,
        1,
        words,
        0,
        &mut unused,
    ) {
        Some(n) => n <= MOST_WORDS,
        None => false,
    }
}

// Writes the body of the part that the words begin with, and says how many words it has.
pub fn write_body(words: &[u32], d: u32, list: &[u32], out: &mut [u32]) -> Result<usize, Unwritten>
    ensures { (result ≡ body_answer (length out.old) (body_of d list.now words.now))
        × (out.new ≡ body_words (length out.old) (body_of d list.now words.now)) }
{
    clear(out);
    if !good_list(d, list) {
        return Err(Unwritten::NoBody);
    }
    let Some(n) = renumber_row(Way::ToBody, d, list, 0, MOST_LEVELS, 1, words, 0, out) else {
        clear(out);
        return Err(Unwritten::NoBody);
    };
    if MOST_WORDS < n {
        clear(out);
        return Err(Unwritten::NoBody);
    }
    if out.len() < n {
        clear(out);
        return Err(Unwritten::Short);
    }
    Ok(n)
}

// Writes the term that a body stands for in a place with so many levels left, where no id passes 65,535: how many words it has,
// also where not all have room.
pub fn write_below(
    body: &[u32],
    d: u32,
    list: &[u32],
    levels: u32,
    out: &mut [u32],
) -> Option<usize>
    requires { (length list.now ≤ 4) × (levels ≤ 64) }
    ensures { below_came result out.new ≡ write_below_gives levels d list.now body.now out.old }
{
    let written = renumber_row(Way::ToTerm, d, list, 0, levels, 1, body, 0, out);
    if written.is_none() {
        clear(out);
    }
    written
}

// Whether two parts have the same body, each under its own abstractions and with its own list.
pub fn same_body(
    words: &[u32],
    d: u32,
    list: &[u32],
    other_words: &[u32],
    other_d: u32,
    other_list: &[u32],
) -> bool
    ensures { result ≡ same_body d list.now words.now other_d other_list.now other_words.now }
{
    good_list(d, list)
        && good_list(other_d, other_list)
        && left_open(words, d, list, other_words, other_d, other_list) == 0
}

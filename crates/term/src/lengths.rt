// The table of a term: document 02's "table with the length of the subterm at every offset".
ghost use Rattle.std.specs.Prelude.{◌≡◌, ◌+◌, ◌≤◌, ◌<◌, length, drop};
ghost use Rattle.std.proofs.lemmas.List.Edits.{sets};
ghost use Rattle.term.specs.Answer.{answered};
ghost use Rattle.term.specs.Part.{part_end};
ghost use Rattle.term.specs.Lengths.{part_lengths, lengths_came, lengths_gives, agreed, check_lengths_gives};
ghost use Rattle.term.specs.Told.Measure.{Measured};

use crate::answer::Answer;
use crate::check::{MOST_WORDS, check_term};
use crate::lent::clear;
use crate::word::count_of;

// The length of the part at an offset: its own word and its children, each passed by its entry in the table.
fn length_at(words: &[u32], table: &[u32], at: usize) -> u32
    requires { (at < length words.now) × (length words.now ≤ 4096) × (length words.now ≤ length table.now) × Measured words.now table.now (at + 1) }
    ensures { result ≡ part_end (drop at words.now) }
{
    let mut next = at + 1;
    for _ in 0..count_of(words[at]) {
        if words.len() <= next {
            break;
        }
        next += table[next] as usize;
    }
    (next - at) as u32
}

// Writes the table of the words, the last entry first: the length of the part at each offset, by the counts alone.
pub fn measure(words: &[u32], out: &mut [u32])
    requires { (length words.now ≤ 4096) × (length words.now ≤ length out.old) }
    ensures { out.new ≡ sets out.old 0 (part_lengths words.now) }
{
    for at in (0..words.len()).rev() {
        out[at] = length_at(words, out, at);
    }
}

// Makes the table of a term: 11 or 13 where it is no term, or over the lent words.
pub fn lengths(term: &[u32], out: &mut [u32]) -> Answer
    ensures { lengths_came (answered result) out.new ≡ lengths_gives term.now (length out.old) }
{
    clear(out);
    if let Err(at) = check_term(term) {
        return Answer::BadTerm(at);
    }
    if out.len() < term.len() {
        return Answer::Short;
    }
    measure(term, out);
    Answer::Done
}

// Done where a table is the right one, else the first offset that is wrong, missing or surplus.
fn agree(right: &[u32], table: &[u32]) -> Answer
    ensures { result ≡ agreed 0 right.now table.now }
{
    match right.iter().zip(table).position(|(n, m)| n != m) {
        Some(at) => Answer::Disagree(at),
        None if right.len() == table.len() => Answer::Done,
        None => Answer::Disagree(right.len().min(table.len())),
    }
}

// Checks a table against its term: 11 where that is no term, 19 where they disagree.
pub fn check_lengths(term: &[u32], table: &[u32]) -> Answer
    ensures { answered result ≡ check_lengths_gives term.now table.now }
{
    if let Err(at) = check_term(term) {
        return Answer::BadTerm(at);
    }
    let mut right = [0u32; MOST_WORDS];
    measure(term, &mut right);
    let size = term.len();
    agree(&right[..size], table)
}

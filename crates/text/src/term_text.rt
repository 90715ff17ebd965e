// A term as text: one line of its tokens.
ghost use Rattle.std.specs.Prelude.{◌≡◌, length};
ghost use Rattle.term.specs.Answer.{answered};
ghost use Rattle.text.specs.TermText.{accept_term, read_term_came, read_term_gives, write_term_came, write_term_gives};

use crate::lent::{clear_bytes, give};
use crate::line::{read_line, write_line};
use term::answer::Answer;
use term::check::{MOST_WORDS, check_term};
use term::lent::clear;

// A text has at most so many bytes.
pub const MOST_BYTES: usize = 65536;

// The line that is said of a text with more: a number, as the place of BadText is.
pub const NO_LINE: usize = 0;

// The line of a term, and the line after it.
const TERM_LINE: usize = 1;

const LINE_AFTER: usize = 2;

// Ok where the term is sound, else the answer that refuses it.
fn accept_term(term: &[u32]) -> Result<(), Answer>
    ensures { result ≡ accept_term term.now }
{
    check_term(term).map_err(Answer::BadTerm)
}

// Reads the text of a term: 10, 11 or 13 where it is not in form, no term, or over the lent words.
pub fn read_term(text: &[u8], out: &mut [u32]) -> Answer
    ensures { read_term_came (answered result) out.new ≡ read_term_gives text.now (length out.old) }
{
    clear(out);
    if MOST_BYTES < text.len() {
        return Answer::BadText(NO_LINE);
    }
    let mut work = [0u32; MOST_WORDS];
    let Some((n, next)) = read_line(text, 0, MOST_WORDS, &mut work, 0) else {
        return Answer::BadText(TERM_LINE);
    };
    if next < text.len() {
        return Answer::BadText(LINE_AFTER);
    }
    let term = &work[..n];
    give(term, accept_term(term), out)
}

// Writes the text of a term: 11 or 13 where it is no term, or over the lent bytes.
pub fn write_term(term: &[u32], out: &mut [u8]) -> Answer
    ensures { write_term_came (answered result) out.new ≡ write_term_gives term.now (length out.old) }
{
    clear_bytes(out);
    if let Err(answer) = accept_term(term) {
        return answer;
    }
    let end = write_line(term, out, 0);
    if out.len() < end {
        clear_bytes(out);
        return Answer::Short;
    }
    Answer::Done
}

// Reads what was given: the lines of a book, and whether every line after them is a `term=` line.
ghost use Rattle.std.specs.Prelude.{◌+◌, ◌≤◌, length, drop};
ghost use Rattle.simplify.specs.File.{terms_read};
ghost use Rattle.simplify.specs.Told.Told.{TermLineTold, TermsTold, InputTold};

use term::check::MOST_WORDS;
use text::book_text::{BOOK, line_after, read_lines};
use text::key::read_key;
use text::line::read_line;
use text::term_text::{MOST_BYTES, NO_LINE};

// Reads a `term=` line; its words go into the lent ones. So many words and the offset after the line.
pub fn read_term_line(text: &[u8], at: usize, words: &mut [u32]) -> Option<(usize, usize)>
    requires { at ≤ length text.now }
    ensures { TermLineTold text.now at words.old words.new result }
{
    let tokens = read_key(text, at, b"term=")?;
    read_line(text, tokens, MOST_WORDS, words, 0)
}

// Judges each line from `at` on, of which the first is the line `due` of the file; the first that is not in form, where there is one.
fn judge_terms(text: &[u8], at: usize, due: usize, words: &mut [u32]) -> Result<(), usize>
    requires { (at ≤ length text.now) × (length text.now ≤ 65536) × (due ≤ 300) }
    ensures { TermsTold (terms_read due (drop at text.now)) (due + length text.now) result }
{
    let mut a = at;
    let mut line = due;
    // The next offset is known only when the line is read.
    while a < text.len() {
        let (_, next) = read_term_line(text, a, words).ok_or(line)?;
        a = next;
        line += 1;
    }
    Ok(())
}

// Reads the book into the lent words, and judges the whole file. So many words of the book and the offset of the terms, or the first line
// that is not in form.
pub fn read_input(
    text: &[u8],
    book: &mut [u32; BOOK],
    words: &mut [u32],
) -> Result<(usize, usize), usize>
    ensures { InputTold text.now book.new result }
{
    if MOST_BYTES < text.len() {
        return Err(NO_LINE);
    }
    let (n, at) = read_lines(text, 0, book)?;
    let due = line_after(&book[..n]);
    judge_terms(text, at, due, words)?;
    Ok((n, at))
}

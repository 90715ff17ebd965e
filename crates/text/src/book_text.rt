// A book as text.
ghost use Rattle.std.specs.Prelude.{◌≡◌, ◌≤◌, length, get_or};
ghost use Rattle.term.specs.Answer.{answered};
ghost use Rattle.text.specs.BookText.{book_read, due_after, read_book_came, read_book_gives};
ghost use Rattle.text.specs.Told.BookTold.{RulesTold};

use crate::key::{read_key, read_number_line};
use crate::lent::give;
use crate::rule_text::{LINES, RULE_LINE, read_rules};
use crate::term_text::{MOST_BYTES, NO_LINE};
use book::accept::accept_book;
use book::limits::MOST_RULES;
use term::answer::Answer;
use term::lent::{clear, put};

// A book has at most so many words: the number of rules, and 64 rules with sides of 64 words.
pub const BOOK: usize = 8385;

// The first two lines of a book.
pub const BOOK_LINE: usize = 1;

pub const COUNT_LINE: usize = 2;

// Reads the lines of a book from `at` on; its words go into `out`. So many words and the offset after the lines, or the first line that is not in form.
pub fn read_lines(text: &[u8], at: usize, out: &mut [u32]) -> Result<(usize, usize), usize>
    requires { at ≤ length text.now }
    ensures { RulesTold book_read 8385 text.now at 0 out.old out.new result }
{
    let count_at = read_key(text, at, b"book=1\n").ok_or(BOOK_LINE)?;
    let (count, rules_at) = read_number_line(text, count_at, b"rules=", MOST_RULES).ok_or(
        COUNT_LINE,
    )?;
    put(out, 0, count);
    let (n, next) = read_rules(text, rules_at, count as usize, out)?;
    Ok((n + 1, next))
}

// The line due after the lines of a book.
pub fn line_after(book: &[u32]) -> usize
    requires { (1 ≤ length book.now) × (get_or book.now 0 0 ≤ 64) }
    ensures { result ≡ due_after book.now }
{
    LINES * book[0] as usize + RULE_LINE
}

// Reads the text of a book: 10, 12 or 13 where it is not in form, no book, or over the lent words.
pub fn read_book(text: &[u8], out: &mut [u32]) -> Answer
    ensures { read_book_came (answered result) out.new ≡ read_book_gives text.now (length out.old) }
{
    clear(out);
    if MOST_BYTES < text.len() {
        return Answer::BadText(NO_LINE);
    }
    let mut work = [0u32; BOOK];
    match read_lines(text, 0, &mut work) {
        Ok((n, next)) => {
            let book = &work[..n];
            if next < text.len() {
                return Answer::BadText(line_after(book));
            }
            give(book, accept_book(book), out)
        }
        Err(line) => Answer::BadText(line),
    }
}

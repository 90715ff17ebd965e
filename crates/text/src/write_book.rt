// Writes a book as text.
ghost use Rattle.std.specs.Prelude.{◌≡◌, [], ◌+◌, ◌≤◌, length, get_or, drop, Ok};
ghost use Rattle.std.proofs.lemmas.List.Edits.{sets};
ghost use Rattle.term.specs.Answer.{answered};
ghost use Rattle.book.specs.Book.{Rule, check_book};
ghost use Rattle.text.specs.BookText.{number_text, side_text, rule_text, rules_text, book_text, write_book_came, write_book_gives};

use crate::lent::{clear_bytes, put_all};
use crate::line::{END, write_line};
use crate::number::write_number;
use crate::term_text::MOST_BYTES;
use book::accept::accept_book;
use term::answer::Answer;
use term::lent::put;

// Before the sides of a rule stand its variables, the length of the left side and that of the right side.
const LEFT_SIZE: usize = 1;

const RIGHT_SIZE: usize = 2;

const HEADER: usize = 3;

// The first rule stands behind the number of rules.
const FIRST_RULE: usize = 1;

// Writes a key; the offset after it.
pub fn put_key(out: &mut [u8], at: usize, key: &[u8]) -> usize
    requires { (at ≤ 900000) × (length key.now ≤ 10) }
    ensures { (result ≡ at + length key.now) × (out.new ≡ sets out.old at key.now) }
{
    put_all(out, at, key);
    at + key.len()
}

// Writes a line of a key and a number; the offset after it.
pub fn write_number_line(out: &mut [u8], at: usize, key: &[u8], n: u32) -> usize
    requires { (at ≤ 900000) × (length key.now ≤ 10) × (n ≤ 100000) }
    ensures { (result ≡ at + length (number_text key.now n [])) × (out.new ≡ sets out.old at (number_text key.now n [])) }
{
    let to = put_key(out, at, key);
    let end = write_number(out, to, n);
    put(out, end, END);
    end + 1
}

// Writes a line of a key and the tokens of a side; the offset after it.
fn write_side(out: &mut [u8], at: usize, key: &[u8], words: &[u32]) -> usize
    requires { (at ≤ 900000) × (length key.now ≤ 10) × (length words.now ≤ 64) }
    ensures { (result ≡ at + length (side_text key.now words.now [])) × (out.new ≡ sets out.old at (side_text key.now words.now [])) }
{
    let to = put_key(out, at, key);
    write_line(words, out, to)
}

// Writes the four lines of a rule; the offset after them.
fn write_rule(
    out: &mut [u8],
    at: usize,
    number: u32,
    vars: u32,
    left: &[u32],
    right: &[u32],
) -> usize
    requires { (at ≤ 800000) × (number ≤ 63) × (vars ≤ 16) × (length left.now ≤ 64) × (length right.now ≤ 64) }
    ensures { (result ≡ at + length (rule_text number (record { vars = vars; left = left.now; right = right.now }) []))
        × (out.new ≡ sets out.old at (rule_text number (record { vars = vars; left = left.now; right = right.now }) [])) }
{
    let vars_at = write_number_line(out, at, b"rule=", number);
    let left_at = write_number_line(out, vars_at, b"vars=", vars);
    let right_at = write_side(out, left_at, b"left=", left);
    write_side(out, right_at, b"right=", right)
}

// Writes the rules of a book; the offset after them.
fn write_rules(out: &mut [u8], at: usize, book: &[u32]) -> usize
    requires { (at ≤ 1000) × (check_book book.now ≡ Ok tt) }
    ensures { (result ≡ at + length (rules_text 0 (get_or book.now 0 0) (drop 1 book.now)))
        × (out.new ≡ sets out.old at (rules_text 0 (get_or book.now 0 0) (drop 1 book.now))) }
{
    let mut to = at;
    let mut a = FIRST_RULE;
    // The header is read here: an accepted book has the rule, and the None of find_rule would be a branch that gives up.
    for number in 0..book[0] {
        let left = a + HEADER;
        let right = left + book[a + LEFT_SIZE] as usize;
        let end = right + book[a + RIGHT_SIZE] as usize;
        to = write_rule(
            out,
            to,
            number,
            book[a],
            &book[left..right],
            &book[right..end],
        );
        a = end;
    }
    to
}

// Writes an accepted book; the offset after its text.
pub fn write_good(book: &[u32], out: &mut [u8]) -> usize
    requires { check_book book.now ≡ Ok tt }
    ensures { (result ≡ 0 + length (book_text book.now)) × (out.new ≡ sets out.old 0 (book_text book.now)) }
{
    let count_at = put_key(out, 0, b"book=1\n");
    let rules_at = write_number_line(out, count_at, b"rules=", book[0]);
    write_rules(out, rules_at, book)
}

// Writes the text of a book: 12 or 13 where it is no book, or over the lent bytes or 65,536.
pub fn write_book(book: &[u32], out: &mut [u8]) -> Answer
    ensures { write_book_came (answered result) out.new ≡ write_book_gives book.now (length out.old) }
{
    clear_bytes(out);
    if let Err(answer) = accept_book(book) {
        return answer;
    }
    let end = write_good(book, out);
    if MOST_BYTES < end || out.len() < end {
        clear_bytes(out);
        return Answer::Short;
    }
    Answer::Done
}

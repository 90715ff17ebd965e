// A whole book text that came by mail.
ghost use Rattle.std.specs.Prelude.{◌≡◌, length};
ghost use Rattle.mend.specs.Told.Told.{MailTold};

use crate::kept::{AREA, Kept, keep_rules};
use book::limits::MOST_RULES_LONG;
use term::lent::put;
use text::book_text::{BOOK_LINE, COUNT_LINE};
use text::key::{read_key, read_number_line};
use text::mail::MOST_STATED;
use text::term_text::{MOST_BYTES, NO_LINE};

// Reads a text: the number that `rules=` states and what is kept, or the first line that is not in form. The new book goes into `book`, the
// old numbers of its rules into `olds`.
pub fn read_mail(
    text: &[u8],
    book: &mut [u32; AREA],
    olds: &mut [u32; MOST_RULES_LONG],
) -> Result<(u32, Kept), usize>
    ensures { MailTold text.now book.new olds.new result }
{
    if MOST_BYTES < text.len() {
        return Err(NO_LINE);
    }
    let count_at = read_key(text, 0, b"book=1\n").ok_or(BOOK_LINE)?;
    let (stated, rules_at) = read_number_line(text, count_at, b"rules=", MOST_STATED).ok_or(
        COUNT_LINE,
    )?;
    let kept = keep_rules(text, rules_at, book, olds)?;
    put(book, 0, kept.rules as u32);
    Ok((stated, kept))
}

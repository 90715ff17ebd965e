// Repairs a book that came by mail.
ghost use Rattle.std.specs.Prelude.{◌≡◌, ◌≤◌, length, replicate, Ok};
ghost use Rattle.term.specs.Answer.{answered};
ghost use Rattle.book.specs.Book.{check_book};
ghost use Rattle.mend.specs.Repair.{repair_book_came, repair_book_gives};
ghost use Rattle.mend.specs.Told.Told.{WrittenTold, RepairTold};

use crate::kept::AREA;
use crate::mail::read_mail;
use crate::notes::{write_notes, write_was};
use book::limits::MOST_RULES_LONG;
use term::answer::Answer;
use text::lent::clear_bytes;
use text::term_text::MOST_BYTES;
use text::write_book::write_good;

// Writes a repaired book and the lines after it into a cleared slice, where there is room; so many bytes.
fn write_repaired(
    book: &[u32],
    stated: u32,
    present: usize,
    olds: &[u32],
    out: &mut [u8],
) -> Result<usize, Answer>
    requires { (check_book book.now ≡ Ok tt) × (stated ≤ 65535) × (present ≤ 3200) × (out.old ≡ replicate (length out.old) 0) }
    ensures { WrittenTold book.now stated present olds.now (length out.old) out.new result }
{
    let notes_at = write_good(book, out);
    if MOST_BYTES < notes_at {
        clear_bytes(out);
        return Err(Answer::Short);
    }
    let was_at = write_notes(out, notes_at, present, olds);
    let end = write_was(out, was_at, stated, present);
    if out.len() < end {
        clear_bytes(out);
        return Err(Answer::Short);
    }
    Ok(end)
}

// Repairs, and says how long the repaired text is, or the answer that refuses what came.
pub fn repair(text: &[u8], out: &mut [u8]) -> Result<usize, Answer>
    ensures { RepairTold text.now (length out.old) out.new result }
{
    clear_bytes(out);
    let mut book = [0u32; AREA];
    let mut olds = [0u32; MOST_RULES_LONG];
    let (stated, kept) = read_mail(text, &mut book, &mut olds).map_err(Answer::BadText)?;
    write_repaired(
        &book[..kept.words],
        stated,
        kept.present,
        &olds[..kept.rules],
        out,
    )
}

// Repairs a book that came by mail: 10 where a line is not in form or not the one due, 13 where the text is over the lent bytes or the new book over 65,536.
pub fn repair_book(text: &[u8], out: &mut [u8]) -> Answer
    ensures { repair_book_came (answered result) out.new ≡ repair_book_gives text.now (length out.old) }
{
    match repair(text, out) {
        Ok(_) => Answer::Done,
        Err(answer) => answer,
    }
}

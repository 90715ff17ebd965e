// The one entry for a book: every operation that takes a book asks here whether it is accepted.
ghost use Rattle.std.specs.Prelude.{◌≡◌};
ghost use Rattle.book.specs.Accept.{accept};

use crate::book::check_book;
use term::answer::Answer;

// Ok where the book is sound, else the answer that refuses it.
pub fn accept_book(book: &[u32]) -> Result<(), Answer>
    ensures { result ≡ accept book.now }
{
    check_book(book).map_err(Answer::BadBook)
}

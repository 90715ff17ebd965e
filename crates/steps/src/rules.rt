// What is asked of a book and a term first; and a rule at a part: the walk with the book finds it, and its right side is written from its bodies.
ghost use Rattle.std.specs.Prelude.{◌≡◌, ◌++◌, ◌≤◌, ◌<◌, length, drop, replicate};
ghost use Rattle.term.specs.Check.{check, term_limits};
ghost use Rattle.book.specs.Accept.{accept};
ghost use Rattle.fit.specs.Build.{start_of};
ghost use Rattle.walk.specs.Told.State.{part_from, Parted};
ghost use Rattle.walk.specs.Told.WithBook.{book_walk, book_visits};
ghost use Rattle.steps.specs.Told.Operations.{GoodBook, Cleared, asked, RuleWritten, RewriteTold};

use crate::aside::write_front;
use book::accept::accept_book;
use book::book::find_rule;
use book::limits::MOST_VARS_LONG;
use fit::build::start_of;
use term::answer::Answer;
use term::check::{MOST_WORDS, check_term};
use term::lent::clear;
use term::word::count_of;
use walk::with_book::walk_book;

// Sixteen bodies of at most 4,096 words.
pub const BODIES: usize = 65536;

// What came of walks, and how many nodes they visited.
#[derive(Clone, Copy)]
pub struct Walking<T> {
    pub came: T,
    pub visits: u64,
}

// Asks of the book, and then of the term.
pub fn ask(book: &[u32], term: &[u32]) -> Result<(), Answer>
    ensures { result ≡ asked (accept book.now) (check term_limits term.now) }
{
    accept_book(book)?;
    check_term(term).map_err(Answer::BadTerm)
}

// Writes the right side of a rule from its bodies, with the arguments that it sets aside of the part that the words begin with. How many words it
// has, or why it is refused.
fn write_rule(
    book: &[u32],
    number: u32,
    part: &[u32],
    bodies: &[u32],
    lengths: &[u32; MOST_VARS_LONG],
    out: &mut [u32; MOST_WORDS],
) -> Result<usize, Answer>
    requires { GoodBook book.now × Parted part.now × (0 < length part.now) }
    ensures { RuleWritten book.now number part.now bodies.now lengths.now out.new result }
{
    let sides = find_rule(book, number).ok_or(Answer::Over)?;
    let b = count_of(book[sides.left]);
    let right = &book[sides.right..sides.end];
    write_front(right, b, part, bodies, lengths, out)
}

// Clears the bodies that the lengths tell of, and the lengths. Bodies are mostly far shorter than their room: what none of them used is
// left as it is.
fn clear_used(bodies: &mut [u32], lengths: &mut [u32; MOST_VARS_LONG])
    requires { start_of lengths.old 16 ≤ length bodies.old }
    ensures { (bodies.new ≡ replicate (start_of lengths.old 16) 0 ++ drop (start_of lengths.old 16) bodies.old)
        × (lengths.new ≡ replicate 16 0) }
{
    let used = start_of(lengths, MOST_VARS_LONG);
    clear(&mut bodies[..used]);
    clear(lengths);
}

// Rewrites the part that the words begin with, and counts the nodes visited: how many words were written, or why it is refused; none where no rule
// fits. The bodies and lengths are cleared before and after.
pub fn rewrite_at(
    book: &[u32],
    tree: &[u32],
    part: &[u32],
    bodies: &mut [u32],
    lengths: &mut [u32; MOST_VARS_LONG],
    out: &mut [u32; MOST_WORDS],
) -> Walking<Option<Result<usize, Answer>>>
    requires { GoodBook book.now × Parted part.now × (0 < length part.now) × Cleared bodies.old lengths.old }
    ensures { RewriteTold book.now (part_from part.now 0) (book_walk book.now tree.now part.now) out.new result.came
        × Cleared bodies.new lengths.new × (result.visits ≡ book_visits tree.now part.now) }
{
    let walk = walk_book(book, tree, part, bodies, lengths);
    let visits = walk.visits;
    match walk.found {
        Ok(None) => Walking { came: None, visits },
        Err(at) => Walking {
            came: Some(Err(Answer::Damaged(at))),
            visits,
        },
        Ok(Some(number)) => {
            let wrote = write_rule(book, number, part, bodies, lengths, out);
            clear_used(bodies, lengths);
            Walking {
                came: Some(wrote),
                visits,
            }
        }
    }
}

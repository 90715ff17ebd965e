// A term's block: the four lines of the next `term=` line.
ghost use Rattle.std.specs.Prelude.{◌≡◌, ◌≤◌, length, drop};
ghost use Rattle.simplify.specs.File.{term_line};
ghost use Rattle.simplify.specs.Told.Told.{NextTold};

use crate::blocks::{write_answer, write_result};
use crate::input::read_term_line;
use steps::simplify::simplify;
use term::answer::number;
use term::check::MOST_WORDS;
use text::refusal::FIRST_REFUSAL;
use text::write_book::put_key;

// So many bytes of the block, and the offset and the number of the next term. Not an Option: NextTold names all three, also where there is no line.
#[derive(Clone, Copy)]
pub struct Next {
    pub length: usize,
    pub at: usize,
    pub number: u32,
}

// A term is simplified with at most so many steps.
const BUDGET: u16 = 1000;

// Writes the block of the term at `at`, which has this number; where no `term=` line stands there, nothing, and the text is at its end.
pub fn next_block(
    text: &[u8],
    at: usize,
    term: u32,
    book: &[u32],
    tree: &[u32],
    out: &mut [u8],
) -> Next
    requires { (at ≤ length text.now) × (term ≤ 65536) }
    ensures { NextTold book.now tree.now term text.now at out.old out.new (term_line (drop at text.now)) result }
{
    let mut words = [0u32; MOST_WORDS];
    let mut res = [0u32; MOST_WORDS];
    let end = text.len();
    let Some((n, next)) = read_term_line(text, at, &mut words) else {
        return Next {
            length: 0,
            at: end,
            number: term,
        };
    };
    let following = term + 1;
    let run = simplify(book, tree, &words[..n], BUDGET, &mut res);
    let start = write_answer(term, run.answer, run.steps as u32, out);
    if FIRST_REFUSAL <= number(run.answer) {
        return Next {
            length: put_key(out, start, b"-\n"),
            at: next,
            number: following,
        };
    }
    Next {
        length: write_result(&res, out, start),
        at: next,
        number: following,
    }
}

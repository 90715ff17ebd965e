// The compiler: the tree of a book, in words.
ghost use Rattle.std.specs.Prelude.{◌≡◌, ◌-◌, length, replicate, Ok};
ghost use Rattle.term.specs.Answer.{answered};
ghost use Rattle.book.specs.Accept.{accept};
ghost use Rattle.compiler.specs.Compiled.{compile_came, compile_gives};

use crate::load::load;
use crate::root::root_tree;
use crate::table::{FIXED, MARKS, SPOTS};
use book::accept::accept_book;
use term::answer::Answer;
use term::lent::clear;
use tree::node::MOST_TREE;

// How many words are said where there is no tree.
const NO_WORDS: u32 = 0;

// The answer, and how many words the tree has; 0 where there is none. Not a Result: the contract of compile names both, at each answer.
#[derive(Clone, Copy)]
pub struct Compiled {
    pub answer: Answer,
    pub words: u32,
}

// The room for a tree.
fn limit_of(room: usize) -> usize
    ensures { result ≡ room - (room - 16384) }
{
    room.min(MOST_TREE)
}

// The tree of an accepted book into a cleared output, with cleared marks.
fn compile_good(
    book: &[u32],
    fixed: &mut [u32; FIXED],
    nums: &mut [u32; SPOTS],
    marks: &mut [u32; MARKS],
    out: &mut [u32],
) -> Compiled
    requires { (accept book.now ≡ Ok tt) × (marks.old ≡ replicate 12352 0) × (out.old ≡ replicate (length out.old) 0) }
    ensures { compile_came (answered result.answer) result.words out.new ≡ compile_gives book.now (length out.old) }
{
    load(book, fixed, nums, marks);
    let limit = limit_of(out.len());
    match root_tree(fixed, nums, marks, out, limit) {
        Some(end) if end <= limit => Compiled {
            answer: Answer::Done,
            words: end as u32,
        },
        _ => {
            clear(out);
            Compiled {
                answer: Answer::Short,
                words: NO_WORDS,
            }
        }
    }
}

// Writes the tree of a book.
pub fn compile(book: &[u32], out: &mut [u32]) -> Compiled
    ensures { compile_came (answered result.answer) result.words out.new ≡ compile_gives book.now (length out.old) }
{
    clear(out);
    if let Err(answer) = accept_book(book) {
        return Compiled {
            answer,
            words: NO_WORDS,
        };
    }
    let mut fixed = [0u32; FIXED];
    let mut nums = [0u32; SPOTS];
    let mut marks = [0u32; MARKS];
    compile_good(book, &mut fixed, &mut nums, &mut marks, out)
}

// The first block: the head of a file, or its refusal; and what is ready for the terms.
ghost use Rattle.std.specs.Prelude.{◌≤◌, length, get_or};
ghost use Rattle.simplify.specs.Told.Told.{HeadTold, FirstTold};

use crate::blocks::write_head;
use crate::input::read_input;
use compiler::compile::compile;
use term::answer::{Answer, number};
use term::check::MOST_WORDS;
use text::book_text::BOOK;
use text::refusal::{FIRST_REFUSAL, write_refusal};
use tree::node::MOST_TREE;

// What stands ready for the terms: so many words of the book and of its tree, and the offset and the number of the first term.
// Numbers beside the lent arrays, since there is no heap.
#[derive(Clone, Copy)]
pub struct Ready {
    pub book: usize,
    pub tree: usize,
    pub at: usize,
    pub number: u32,
}

// So many bytes of the block, and what stands ready where the file is not refused.
#[derive(Clone, Copy)]
pub struct First {
    pub length: usize,
    pub ready: Option<Ready>,
}

// The first term has this number.
const FIRST_TERM: u32 = 0;

// Compiles the book of a file in form, whose terms stand at `at`.
fn head_block(book: &[u32], at: usize, tree: &mut [u32; MOST_TREE], out: &mut [u8]) -> First
    requires { (get_or book.now 0 0 ≤ 64) × (1 ≤ length book.now) }
    ensures { HeadTold book.now at tree.new out.old out.new result }
{
    let compiled = compile(book, tree);
    if FIRST_REFUSAL <= number(compiled.answer) {
        return First {
            length: write_refusal(compiled.answer, out),
            ready: None,
        };
    }
    let words = compiled.words;
    First {
        length: write_head(book[0], words, out),
        ready: Some(Ready {
            book: book.len(),
            tree: words as usize,
            at,
            number: FIRST_TERM,
        }),
    }
}

// Writes the first block of a file, and leaves the words of its book and of its tree.
pub fn first_block(
    text: &[u8],
    book: &mut [u32; BOOK],
    tree: &mut [u32; MOST_TREE],
    out: &mut [u8],
) -> First
    ensures { FirstTold text.now book.new tree.new out.old out.new result }
{
    let mut words = [0u32; MOST_WORDS];
    match read_input(text, book, &mut words) {
        Ok((n, at)) => head_block(&book[..n], at, tree, out),
        Err(line) => First {
            length: write_refusal(Answer::BadText(line), out),
            ready: None,
        },
    }
}

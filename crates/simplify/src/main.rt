// The program `simplify`: reads a book and terms from standard input, and prints block after block what document 01 says. What fails is
// said on standard error.
#![tactic(auto)]

mod blocks;
mod first;
mod input;
mod next;

ghost use Rattle.std.specs.Prelude.{◌≤◌, length};

use first::first_block;
use next::next_block;
use streams::standard::{has_arguments, print, read_all, read_failed};
use text::book_text::BOOK;
use tree::node::MOST_TREE;

// One byte more than a file may have, so that a longer one is seen.
const ROOM: usize = 65537;

// The longest block is 4,096 tokens and a few short lines.
const BLOCK: usize = 65536;

// Prints a block, or says why it cannot.
fn print_block(rt: &HostRuntime, block: &[u8]) -> bool {
    print(
        &mut rt.stdout(),
        &mut rt.stderr(),
        block,
        b"simplify: standard output",
    )
}

// Prints the block of each term, until the text or the output ends.
fn print_terms(
    rt: &HostRuntime,
    text: &[u8],
    from: usize,
    first: u32,
    book: &[u32],
    tree: &[u32],
    out: &mut [u8; BLOCK],
)
    requires { (from ≤ length text.now) × (length text.now ≤ 65536) × (first ≤ from) }
{
    let mut at = from;
    let mut term = first;
    // The next offset is known only when the block is made.
    while at < text.len() {
        let next = next_block(text, at, term, book, tree, out);
        if !print_block(rt, &out[..next.length]) {
            return;
        }
        at = next.at;
        term = next.number;
    }
}

// Prints the first block, and the terms of a file that is not refused.
fn print_file(
    rt: &HostRuntime,
    text: &[u8],
    book: &mut [u32; BOOK],
    tree: &mut [u32; MOST_TREE],
    out: &mut [u8; BLOCK],
) {
    let first = first_block(text, book, tree, out);
    if !print_block(rt, &out[..first.length]) {
        return;
    }
    if let Some(ready) = first.ready {
        print_terms(
            rt,
            text,
            ready.at,
            ready.number,
            &book[..ready.book],
            &tree[..ready.tree],
            out,
        );
    }
}

// Reads standard input to its end, and prints.
// As in repair but for what is printed: one function for both would take that as a closure, no plainer than two arms.
fn print_input(
    rt: &HostRuntime,
    text: &mut [u8],
    book: &mut [u32; BOOK],
    tree: &mut [u32; MOST_TREE],
    out: &mut [u8; BLOCK],
) {
    match read_all(&mut rt.stdin(), text) {
        Ok(n) => print_file(rt, &text[..n], book, tree, out),
        Err(error) => read_failed(&mut rt.stderr(), b"simplify: standard input", error),
    }
}

fn main(rt: HostRuntime) {
    if has_arguments(&rt, &mut rt.stderr(), b"usage: simplify < FILE\n") {
        return;
    }
    let mut text = [0u8; ROOM];
    let mut book = [0u32; BOOK];
    let mut tree = [0u32; MOST_TREE];
    let mut out = [0u8; BLOCK];
    print_input(&rt, &mut text, &mut book, &mut tree, &mut out);
}

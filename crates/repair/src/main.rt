// The program `repair`: reads a book that came by mail from standard input, and prints it repaired as document 02's E1 says. What fails is
// said on standard error.
#![tactic(auto)]

mod block;

use block::repair_block;
use streams::standard::{has_arguments, print, read_all, read_failed};

// One byte more than a text may have, so that a longer one is seen.
const ROOM: usize = 65537;

// The longest output: a book of 65,536 bytes, lines no longer than the text that came, and one line of 16 bytes.
const BLOCK: usize = 131088;

// Prints what is made of the text.
fn print_repaired(rt: &HostRuntime, text: &[u8], out: &mut [u8; BLOCK]) {
    let length = repair_block(text, out);
    print(
        &mut rt.stdout(),
        &mut rt.stderr(),
        &out[..length],
        b"repair: standard output",
    );
}

// Reads standard input to its end, and prints.
fn print_input(rt: &HostRuntime, text: &mut [u8], out: &mut [u8; BLOCK]) {
    match read_all(&mut rt.stdin(), text) {
        Ok(n) => print_repaired(rt, &text[..n], out),
        Err(error) => read_failed(&mut rt.stderr(), b"repair: standard input", error),
    }
}

fn main(rt: HostRuntime) {
    if has_arguments(&rt, &mut rt.stderr(), b"usage: repair < FILE\n") {
        return;
    }
    let mut text = [0u8; ROOM];
    let mut out = [0u8; BLOCK];
    print_input(&rt, &mut text, &mut out);
}

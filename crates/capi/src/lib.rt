// The thirteen public operations for C and Rust, on numbers and slices. A slice is passed as a pointer and a length, an array and a single number as a
// pointer. Inputs come first, then lent outputs, then further results, and the place last; what comes back is document 01's number. Each
// promises what the operation of `rosenduch` promises, where what is said is that number and that place.
#![tactic(auto)]

ghost use Rattle.std.specs.Prelude.{◌≡◌, length};
ghost use Rattle.term.specs.Answer.{saying, answered};
ghost use Rattle.term.specs.Checked.{check_term_gives};
ghost use Rattle.book.specs.Accept.{check_book_gives};
ghost use Rattle.fit.specs.Match.{match_rule_came, match_rule_gives};
ghost use Rattle.fit.specs.Build.{build_left_came, build_left_gives};
ghost use Rattle.compiler.specs.Compiled.{compile_came, compile_gives};
ghost use Rattle.walk.specs.ByTree.{match_tree_came, match_tree_gives};
ghost use Rattle.steps.specs.Rewrite.{rewrite_root_came, rewrite_root_gives};
ghost use Rattle.steps.specs.Simplify.{simplify_came, simplify_gives};
ghost use Rattle.text.specs.TermText.{read_term_came, read_term_gives, write_term_came, write_term_gives};
ghost use Rattle.mend.specs.Repair.{repair_book_came, repair_book_gives};
ghost use Rattle.text.specs.BookText.{read_book_came, read_book_gives, write_book_came, write_book_gives};

use rosenduch::operations;
use term::answer::{Answer, number, place};

// Hands back an answer's number, with its place through the pointer.
fn say(answer: Answer, at: &mut usize) -> u32
    ensures { saying result at.new ≡ answered answer }
{
    *at = place(answer);
    number(answer)
}

// Checks that words are one term.
pub fn rosenduch_check_term(term: &[u32], at: &mut usize) -> u32
    ensures { saying result at.new ≡ check_term_gives term.now }
{
    say(operations::check_term(term), at)
}

// Checks that words are a book.
pub fn rosenduch_check_book(book: &[u32], at: &mut usize) -> u32
    ensures { saying result at.new ≡ check_book_gives book.now }
{
    say(operations::check_book(book), at)
}

// Matches one rule of a book against a term, with the number of arguments set aside.
pub fn rosenduch_match_rule(
    book: &[u32],
    rule: u32,
    term: &[u32],
    bodies: &mut [u32],
    lengths: &mut [u32; 16],
    aside: &mut u32,
    at: &mut usize,
) -> u32
    ensures { match_rule_came (saying result at.new) aside.new bodies.new lengths.new
        ≡ match_rule_gives book.now rule term.now (length bodies.old) }
{
    let found = operations::match_rule(book, rule, term, bodies, lengths);
    *aside = found.aside;
    say(found.answer, at)
}

// Builds a rule's left side from bodies.
pub fn rosenduch_build_left(
    book: &[u32],
    rule: u32,
    bodies: &[u32],
    lengths: &[u32; 16],
    out: &mut [u32],
    at: &mut usize,
) -> u32
    ensures { build_left_came (saying result at.new) out.new
        ≡ build_left_gives book.now rule bodies.now lengths.now (length out.old) }
{
    say(operations::build_left(book, rule, bodies, lengths, out), at)
}

// Compiles a book, with the number of the tree's words.
pub fn rosenduch_compile(book: &[u32], out: &mut [u32], words: &mut u32, at: &mut usize) -> u32
    ensures { compile_came (saying result at.new) words.new out.new ≡ compile_gives book.now (length out.old) }
{
    let compiled = operations::compile(book, out);
    *words = compiled.words;
    say(compiled.answer, at)
}

// Matches a term by a tree, with the rule that it names, the number of arguments set aside and the nodes visited.
pub fn rosenduch_match_tree(
    tree: &[u32],
    term: &[u32],
    bodies: &mut [u32],
    lengths: &mut [u32; 16],
    rule: &mut u32,
    aside: &mut u32,
    visits: &mut u64,
    at: &mut usize,
) -> u32
    ensures { match_tree_came (saying result at.new) rule.new aside.new visits.new bodies.new lengths.new
        ≡ match_tree_gives tree.now term.now (length bodies.old) }
{
    let found = operations::match_tree(tree, term, bodies, lengths);
    *rule = found.rule;
    *aside = found.aside;
    *visits = found.visits;
    say(found.answer, at)
}

// Rewrites a term at its root, with the nodes visited.
pub fn rosenduch_rewrite_root(
    book: &[u32],
    tree: &[u32],
    term: &[u32],
    out: &mut [u32],
    visits: &mut u64,
    at: &mut usize,
) -> u32
    ensures { rewrite_root_came (saying result at.new) visits.new out.new
        ≡ rewrite_root_gives book.now tree.now term.now (length out.old) }
{
    let rewritten = operations::rewrite_root(book, tree, term, out);
    *visits = rewritten.visits;
    say(rewritten.answer, at)
}

// Simplifies a term, with the steps made and the nodes visited.
pub fn rosenduch_simplify(
    book: &[u32],
    tree: &[u32],
    term: &[u32],
    budget: u16,
    out: &mut [u32],
    steps: &mut u16,
    visits: &mut u64,
    at: &mut usize,
) -> u32
    ensures { simplify_came (saying result at.new) steps.new visits.new out.new
        ≡ simplify_gives book.now tree.now term.now budget (length out.old) }
{
    let done = operations::simplify(book, tree, term, budget, out);
    *steps = done.steps;
    *visits = done.visits;
    say(done.answer, at)
}

// Reads the text of a book.
pub fn rosenduch_read_book(text: &[u8], out: &mut [u32], at: &mut usize) -> u32
    ensures { read_book_came (saying result at.new) out.new ≡ read_book_gives text.now (length out.old) }
{
    say(operations::read_book(text, out), at)
}

// Writes the text of a book.
pub fn rosenduch_write_book(book: &[u32], out: &mut [u8], at: &mut usize) -> u32
    ensures { write_book_came (saying result at.new) out.new ≡ write_book_gives book.now (length out.old) }
{
    say(operations::write_book(book, out), at)
}

// Repairs the text of a book that came by mail.
pub fn rosenduch_repair_book(text: &[u8], out: &mut [u8], at: &mut usize) -> u32
    ensures { repair_book_came (saying result at.new) out.new ≡ repair_book_gives text.now (length out.old) }
{
    say(operations::repair_book(text, out), at)
}

// Reads the text of a term.
pub fn rosenduch_read_term(text: &[u8], out: &mut [u32], at: &mut usize) -> u32
    ensures { read_term_came (saying result at.new) out.new ≡ read_term_gives text.now (length out.old) }
{
    say(operations::read_term(text, out), at)
}

// Writes the text of a term.
pub fn rosenduch_write_term(term: &[u32], out: &mut [u8], at: &mut usize) -> u32
    ensures { write_term_came (saying result at.new) out.new ≡ write_term_gives term.now (length out.old) }
{
    say(operations::write_term(term, out), at)
}

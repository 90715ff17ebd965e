// The thirteen public operations. Each takes every input, ends, and answers with document 01's numbers (`term::answer`). After a refusal, 10 or
// more, each lent output holds zeros alone. What comes back is what the definition `x_gives` of the crate that does the work gives.
ghost use Rattle.std.specs.Prelude.{◌≡◌, length};
ghost use Rattle.term.specs.Answer.{answered};
ghost use Rattle.term.specs.Checked.{check_term_gives};
ghost use Rattle.book.specs.Accept.{check_book_gives};
ghost use Rattle.fit.specs.Match.{match_rule_came, match_rule_gives};
ghost use Rattle.fit.specs.Build.{build_left_came, build_left_gives};
ghost use Rattle.compiler.specs.Compiled.{compile_came, compile_gives};
ghost use Rattle.walk.specs.ByTree.{match_tree_came, match_tree_gives};
ghost use Rattle.steps.specs.Rewrite.{rewrite_root_came, rewrite_root_gives};
ghost use Rattle.steps.specs.Simplify.{simplify_came, simplify_gives};
ghost use Rattle.text.specs.TermText.{read_term_came, read_term_gives, write_term_came, write_term_gives};
ghost use Rattle.mend.specs.Repair.{repair_book_came, repair_book_gives};
ghost use Rattle.text.specs.BookText.{read_book_came, read_book_gives, write_book_came, write_book_gives};

use compiler::compile::Compiled;
use fit::rules::RuleMatch;
use steps::rewrite::Rewritten;
use steps::simplify::Simplified;
use term::answer::Answer;
use walk::by_tree::TreeMatch;

// Whether the words are one term. Done, or BadTerm with the first bad place.
pub fn check_term(words: &[u32]) -> Answer
    ensures { answered result ≡ check_term_gives words.now }
{
    match term::check::check_term(words) {
        Ok(()) => Answer::Done,
        Err(at) => Answer::BadTerm(at),
    }
}

// Whether the words are a book. Done, or BadBook with the first bad rule.
pub fn check_book(book: &[u32]) -> Answer
    ensures { answered result ≡ check_book_gives book.now }
{
    match book::accept::accept_book(book) {
        Ok(()) => Answer::Done,
        Err(answer) => answer,
    }
}

// Matches the rule of this number against a term. Done, with how many of the term's last arguments are set aside, the bodies in variable order,
// zeros after them, and their lengths; NoFit where no bodies turn the left side into the term without the arguments set aside; else BadBook,
// NoRule, BadTerm, or Short where the bodies have no room.
pub fn match_rule(
    book: &[u32],
    number: u32,
    term: &[u32],
    bodies: &mut [u32],
    lengths: &mut [u32; 16],
) -> RuleMatch
    ensures { match_rule_came (answered result.answer) result.aside bodies.new lengths.new ≡ match_rule_gives book.now number term.now (length bodies.old) }
{
    fit::rules::match_rule(book, number, term, bodies, lengths)
}

// Builds the left side of a rule from bodies, one list in variable order with sixteen lengths beside it. Done, with the term and zeros after
// it; else BadBook, NoRule, BadTerm with the first bad variable (16 for bad lengths), Over where the term is over a limit, or Short.
pub fn build_left(
    book: &[u32],
    number: u32,
    bodies: &[u32],
    lengths: &[u32; 16],
    out: &mut [u32],
) -> Answer
    ensures { build_left_came (answered result) out.new ≡ build_left_gives book.now number bodies.now lengths.now (length out.old) }
{
    fit::build::build_left(book, number, bodies, lengths, out)
}

// Compiles a book into a tree. Done, with the tree, zeros after it, and how many words the tree has; else BadBook, or Short where the tree is
// over 16,384 words or has no room.
pub fn compile(book: &[u32], out: &mut [u32]) -> Compiled
    ensures { compile_came (answered result.answer) result.words out.new ≡ compile_gives book.now (length out.old) }
{
    compiler::compile::compile(book, out)
}

// Matches a term by a tree, whole or damaged. Done, with the rule that the tree names, how many of the term's last arguments are set aside,
// the bodies in variable order, zeros after them, and their lengths; NoFit where it names none; else BadTerm, Damaged with a node's address,
// or Short where the bodies have no room. With the nodes that the walk visited, none before it.
pub fn match_tree(
    tree: &[u32],
    term: &[u32],
    bodies: &mut [u32],
    lengths: &mut [u32; 16],
) -> TreeMatch
    ensures { match_tree_came (answered result.answer) result.rule result.aside result.visits bodies.new lengths.new ≡ match_tree_gives tree.now term.now (length bodies.old) }
{
    walk::by_tree::match_tree(tree, term, bodies, lengths)
}

// Rewrites a term at its root by the rule that the tree names; the arguments set aside stand at the end of what is written. Done, with the new
// term and zeros after it; NoFit where it names none; else BadBook, BadTerm, Damaged, CannotTake with the number of the arguments where what is
// written is no symbol with room for them, Over where the new term is over a limit, or Short. With the nodes that the walk visited, none before it.
pub fn rewrite_root(book: &[u32], tree: &[u32], term: &[u32], out: &mut [u32]) -> Rewritten
    ensures { rewrite_root_came (answered result.answer) result.visits out.new ≡ rewrite_root_gives book.now tree.now term.now (length out.old) }
{
    steps::rewrite::rewrite_root(book, tree, term, out)
}

// Simplifies a term by steps, at most so many as the budget. Done where no rule fits anywhere, BudgetUsed where one still does, each with the
// term so far, zeros after it, and the steps made; else BadBook, BadTerm, Damaged, CannotTake, Over or Short, with the steps completed. With the
// nodes that all walks of all steps and of the last search visited.
pub fn simplify(
    book: &[u32],
    tree: &[u32],
    term: &[u32],
    budget: u16,
    out: &mut [u32],
) -> Simplified
    ensures { simplify_came (answered result.answer) result.steps result.visits out.new ≡ simplify_gives book.now tree.now term.now budget (length out.old) }
{
    steps::simplify::simplify(book, tree, term, budget, out)
}

// Reads the text of a book. Done, with the book and zeros after it; else BadText with the line, BadBook, or Short.
pub fn read_book(text: &[u8], out: &mut [u32]) -> Answer
    ensures { read_book_came (answered result) out.new ≡ read_book_gives text.now (length out.old) }
{
    text::book_text::read_book(text, out)
}

// Writes the text of a book. Done, with the text and zeros after it; else BadBook, or Short where the text is over 65,536 bytes or has no
// room.
pub fn write_book(book: &[u32], out: &mut [u8]) -> Answer
    ensures { write_book_came (answered result) out.new ≡ write_book_gives book.now (length out.old) }
{
    text::write_book::write_book(book, out)
}

// Repairs the text of a book that came by mail. Done, with the text of the new book, a line for each rule that was there and zeros after them;
// else BadText with the line, or Short where the new book's text is over 65,536 bytes or there is no room.
pub fn repair_book(text: &[u8], out: &mut [u8]) -> Answer
    ensures { repair_book_came (answered result) out.new ≡ repair_book_gives text.now (length out.old) }
{
    mend::repair::repair_book(text, out)
}

// Reads the text of a term. Done, with the term and zeros after it; else BadText with the line, BadTerm, or Short.
pub fn read_term(text: &[u8], out: &mut [u32]) -> Answer
    ensures { read_term_came (answered result) out.new ≡ read_term_gives text.now (length out.old) }
{
    text::term_text::read_term(text, out)
}

// Writes the text of a term. Done, with the text and zeros after it; else BadTerm or Short.
pub fn write_term(term: &[u32], out: &mut [u8]) -> Answer
    ensures { write_term_came (answered result) out.new ≡ write_term_gives term.now (length out.old) }
{
    text::term_text::write_term(term, out)
}

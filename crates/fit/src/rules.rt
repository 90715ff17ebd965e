// Matching one rule of a book.
ghost use Rattle.std.specs.Prelude.{◌≡◌, ◌≤◌, ◌<◌, length, replicate};
ghost use Rattle.term.specs.Answer.{answered};
ghost use Rattle.fit.specs.Match.{match_rule_came, match_rule_gives};
ghost use Rattle.fit.specs.Told.Told.{covered_word, RuleTold};

use crate::bodies::write_bodies;
use crate::fitting::{Pair, TABLE};
use book::accept::accept_book;
use book::book::find_rule;
use book::limits::SIDE_LEVELS;
use term::answer::Answer;
use term::check::check_term;
use term::lent::clear;
use term::word::{SYMBOL, count_of, id_of, kind_of};

// The answer, and how many arguments are set aside; 0 where no rule fits. Not a Result: the contract of match_rule names both, at each answer.
#[derive(Clone, Copy)]
pub struct RuleMatch {
    pub answer: Answer,
    pub aside: u32,
}

fn refuse(answer: Answer) -> RuleMatch
    ensures { (result.answer ≡ answer) × (result.aside ≡ 0) }
{
    RuleMatch { answer, aside: 0 }
}

// Whether v is the symbol of w with no fewer arguments.
fn is_covered(w: u32, v: u32) -> bool
    ensures { covered_word w v ≡ result }
{
    kind_of(v) == SYMBOL && id_of(w) == id_of(v) && count_of(w) <= count_of(v)
}

// A rule over a term, with cleared outputs. The left side's arguments are walked beside as many of the term.
fn fit_rule(pair: &Pair, bodies: &mut [u32], lengths: &mut [u32; 16]) -> RuleMatch
    requires { (bodies.old ≡ replicate (length bodies.old) 0) × (lengths.old ≡ replicate 16 0) }
    ensures { RuleTold pair.now.vars pair.now.left.now pair.now.term.now (length bodies.old) bodies.new lengths.new result }
{
    let w = pair.left[0];
    let v = pair.term[0];
    if !is_covered(w, v) {
        return refuse(Answer::NoFit);
    }
    let b = count_of(w);
    let mut table = [0u32; TABLE];
    if pair
        .fit_row(0, SIDE_LEVELS - 1, b, 1, 1, &mut table)
        .is_none()
    {
        return refuse(Answer::NoFit);
    }
    if !write_bodies(pair, &table, bodies, lengths) {
        return refuse(Answer::Short);
    }
    RuleMatch {
        answer: Answer::Done,
        aside: count_of(v) - b,
    }
}

// Matches the rule of this number against a term: its bodies in variable order, and their lengths.
pub fn match_rule(
    book: &[u32],
    number: u32,
    term: &[u32],
    bodies: &mut [u32],
    lengths: &mut [u32; 16],
) -> RuleMatch
    ensures { match_rule_came (answered result.answer) result.aside bodies.new lengths.new ≡ match_rule_gives book.now number term.now (length bodies.old) }
{
    clear(bodies);
    clear(lengths);
    if let Err(answer) = accept_book(book) {
        return refuse(answer);
    }
    let Some(sides) = find_rule(book, number) else {
        return refuse(Answer::NoRule(number));
    };
    if let Err(at) = check_term(term) {
        return refuse(Answer::BadTerm(at));
    }
    let pair = Pair {
        vars: sides.vars,
        left: sides.left(book),
        term,
    };
    fit_rule(&pair, bodies, lengths)
}

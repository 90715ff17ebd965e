// Matching by the tree.
ghost use Rattle.std.specs.Prelude.{◌≡◌, ◌<◌, length, replicate};
ghost use Rattle.term.specs.Answer.{answered};
ghost use Rattle.walk.specs.Told.State.{Parted, WalkTold, walked_here, visits_here, walked_gives, FindsNone};
ghost use Rattle.walk.specs.ByTree.{match_tree_came, match_tree_gives};

use crate::leaf::{first_count, write_leaf};
use crate::state::{FIRST, NO_VISITS, Stands, THIRD, Walk, walk_tree};
use term::answer::Answer;
use term::check::check_term;
use term::lent::clear;
use tree::node::MOST_TREE;

// What is said for the rule and for what is set aside where no rule was found.
const NONE: u32 = 0;

// The answer, the rule that was found, how many arguments are set aside, and how many nodes the walk visited.
// Not a Result: the contract of match_tree names all four, at each answer.
#[derive(Clone, Copy)]
pub struct TreeMatch {
    pub answer: Answer,
    pub rule: u32,
    pub aside: u32,
    pub visits: u64,
}

// No rule is found, or there is no room for its bodies.
fn no_rule(answer: Answer, visits: u64) -> TreeMatch
    ensures { FindsNone answer visits result }
{
    TreeMatch {
        answer,
        rule: NONE,
        aside: NONE,
        visits,
    }
}

// A walk that ended over a term, with cleared outputs. Where no book is given, no more can be set aside than the root has.
fn match_walk(
    walk: &Walk,
    tree: &[u32],
    term: &[u32],
    bodies: &mut [u32],
    lengths: &mut [u32; 16],
) -> TreeMatch
    requires { Parted term.now × (0 < length term.now) × WalkTold tree.now term.now walk.now × (bodies.old ≡ replicate (length bodies.old) 0) × (lengths.old ≡ replicate 16 0) }
    ensures { match_tree_came (answered result.answer) result.rule result.aside result.visits bodies.new lengths.new
        ≡ walked_gives (length bodies.old) (walked_here tree.now term.now) (visits_here tree.now term.now) }
{
    let at = walk.at;
    let visits = walk.visits;
    match walk.stands {
        Stands::Rule => (),
        Stands::NoRule => return no_rule(Answer::NoFit, visits),
        _ => return no_rule(Answer::Damaged(at), visits),
    }
    let aside = tree[at + THIRD];
    if first_count(term) < aside {
        return no_rule(Answer::Damaged(at), visits);
    }
    if !write_leaf(walk, tree, term, bodies, lengths) {
        return no_rule(Answer::Short, visits);
    }
    TreeMatch {
        answer: Answer::Done,
        rule: tree[at + FIRST],
        aside,
        visits,
    }
}

// Matches a term by the tree: the rule that it finds, the bodies in variable order, their lengths, and the nodes visited.
pub fn match_tree(
    tree: &[u32],
    term: &[u32],
    bodies: &mut [u32],
    lengths: &mut [u32; 16],
) -> TreeMatch
    ensures { match_tree_came (answered result.answer) result.rule result.aside result.visits bodies.new lengths.new ≡ match_tree_gives tree.now term.now (length bodies.old) }
{
    clear(bodies);
    clear(lengths);
    if let Err(at) = check_term(term) {
        return no_rule(Answer::BadTerm(at), NO_VISITS);
    }
    if MOST_TREE < tree.len() {
        return no_rule(Answer::Damaged(MOST_TREE), NO_VISITS);
    }
    match_walk(&walk_tree(tree, term), tree, term, bodies, lengths)
}

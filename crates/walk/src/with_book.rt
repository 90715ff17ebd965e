// The walk where a book is given too.
ghost use Rattle.std.specs.Prelude.{◌≡◌, ◌+◌, ◌≤◌, ◌<◌, length, drop, replicate, eqb};
ghost use Rattle.walk.specs.Walk.{variables_in, left_count};
ghost use Rattle.walk.specs.Told.State.{Parted, WalkTold};
ghost use Rattle.walk.specs.Told.WithBook.{book_walk, book_visits, counts_in, leaf_fits, SkipTold, BookWalked};

use crate::leaf::{K_AT, VARIABLE_WORDS, first_count, write_leaf};
use crate::state::{
    FIRST, LEAF_WORDS, NO_VISITS, NODE_WORDS, SECOND, Stands, THIRD, Walk, walk_tree,
};
use crate::taken::{CASE_WORDS, find_case};
use book::book::find_rule;
use book::variables::counted_in;
use tree::node::{FAIL, MOST_TREE, SWITCH};

// What the walk found, and how many nodes it visited: a rule or none, or the address of the damage.
#[derive(Clone, Copy)]
pub struct BookWalk {
    pub found: Result<Option<u32>, usize>,
    pub visits: u64,
}

// The visits where the root alone settles it: the root and its default.
const ROOT_VISITS: u64 = 2;

// Whether the n variables of a Leaf from an address on have the counts that they have in a left side.
fn counts_fit(tree: &[u32], from: usize, n: u32, left: &[u32]) -> bool
    requires { from ≤ length tree.now }
    ensures { result ≡ counts_in left.now 0 (variables_in n (drop from tree.now)) }
{
    let mut at = from;
    for x in 0..n {
        if tree.len() - at < VARIABLE_WORDS {
            return false;
        }
        let k = tree[at + K_AT];
        let list = at + VARIABLE_WORDS;
        if tree.len() - list < k as usize {
            return false;
        }
        if counted_in(x, left).checked_sub(1) != Some(k) {
            return false;
        }
        at = list + k as usize;
    }
    true
}

// Whether a root has just so many more arguments than a left side as are set aside.
fn aside_fits(aside: u32, left: &[u32], arguments: u32) -> bool
    ensures { result ≡ eqb (aside + left_count left.now) arguments }
{
    aside <= arguments && first_count(left) == arguments - aside
}

// Whether the Leaf at an address fits the book, for a root with so many arguments: its rule is there, with as many variables, just what the left side
// does not take is set aside, and the variables have the counts of the left side.
fn leaf_fits(book: &[u32], tree: &[u32], at: usize, arguments: u32) -> bool
    requires { at + 4 ≤ length tree.now }
    ensures { result ≡ leaf_fits book.now arguments tree.now at }
{
    let Some(sides) = find_rule(book, tree[at + FIRST]) else {
        return false;
    };
    let n = tree[at + SECOND];
    let left = &book[sides.left..sides.right];
    sides.vars == n
        && aside_fits(tree[at + THIRD], left, arguments)
        && counts_fit(tree, at + LEAF_WORDS, n, left)
}

// Whether the tree's root is a Switch on the place 0 that has no case for a word, and its default is a Fail. No state is needed to say so.
fn skips(tree: &[u32], word: u32) -> bool
    ensures { SkipTold tree.now word result }
{
    if tree.len() < NODE_WORDS || tree[0] != SWITCH || tree[FIRST] != 0 {
        return false;
    }
    let cases = tree[SECOND] as usize;
    if tree.len() - NODE_WORDS <= CASE_WORDS * cases {
        return false;
    }
    let default = tree[NODE_WORDS + CASE_WORDS * cases] as usize;
    if default == 0 || tree.len() <= default {
        return false;
    }
    tree[default] == FAIL && find_case(tree, NODE_WORDS, cases, word).is_none()
}

// A walk that ended over a part, with cleared outputs. There is always room for the bodies.
fn match_with(
    walk: &Walk,
    book: &[u32],
    tree: &[u32],
    term: &[u32],
    bodies: &mut [u32],
    lengths: &mut [u32; 16],
) -> Result<Option<u32>, usize>
    requires { Parted term.now × (0 < length term.now) × WalkTold tree.now term.now walk.now × (length tree.now ≤ 16384)
        × (bodies.old ≡ replicate 65536 0) × (lengths.old ≡ replicate 16 0) }
    ensures { BookWalked (book_walk book.now tree.now term.now) result bodies.new lengths.new }
{
    let at = walk.at;
    // As in match_walk, which says it with the visits: an Option in a Result is no plainer than three arms.
    match walk.stands {
        Stands::Rule => (),
        Stands::NoRule => return Ok(None),
        _ => return Err(at),
    }
    if !leaf_fits(book, tree, at, first_count(term)) {
        return Err(at);
    }
    write_leaf(walk, tree, term, bodies, lengths);
    Ok(Some(tree[at + FIRST]))
}

// Walks the tree over the part that the words begin with, and judges a Leaf by the book: the rule that was found, its bodies in variable
// order and their lengths, and the nodes visited.
pub fn walk_book(
    book: &[u32],
    tree: &[u32],
    term: &[u32],
    bodies: &mut [u32],
    lengths: &mut [u32; 16],
) -> BookWalk
    requires { Parted term.now × (0 < length term.now) × (bodies.old ≡ replicate 65536 0) × (lengths.old ≡ replicate 16 0) }
    ensures { BookWalked (book_walk book.now tree.now term.now) result.found bodies.new lengths.new
        × (result.visits ≡ book_visits tree.now term.now) }
{
    if MOST_TREE < tree.len() {
        return BookWalk {
            found: Err(MOST_TREE),
            visits: NO_VISITS,
        };
    }
    if skips(tree, term[0]) {
        return BookWalk {
            found: Ok(None),
            visits: ROOT_VISITS,
        };
    }
    let walk = walk_tree(tree, term);
    BookWalk {
        found: match_with(&walk, book, tree, term, bodies, lengths),
        visits: walk.visits,
    }
}

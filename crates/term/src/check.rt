// Whether a list of words is one tree within limits, and where it first is not.
ghost use Rattle.std.specs.Prelude.{◌≡◌, ◌≤◌};
ghost use Rattle.term.specs.Check.{check, may_stand, term_limits};

use crate::word::{TERM_RANK, count_of, table_rank};

// A term has at most so many words, and nests so deep.
pub const MOST_WORDS: usize = 4096;

pub const MOST_NESTING: usize = 64;

// The same as a number of levels.
pub const MOST_LEVELS: u32 = MOST_NESTING as u32;

// One level more than may be open: the level of a word that nests too deep.
pub const OPEN_LEVELS: usize = MOST_NESTING + 1;

// Whether a word may stand at an offset where `depth` levels are open.
#[tactic(auto, unfolding(crate::specs::Check::may_stand))]
fn may_stand(w: u32, at: usize, depth: usize, ranks: u32, most: usize, nesting: usize) -> bool
    ensures { result ≡ may_stand (record { ranks = ranks; length = most; nesting = nesting }) at depth w }
{
    table_rank(w) <= ranks && depth <= nesting && at < most
}

// The open levels lie in `left`, the innermost last, each with the number of its trees that are still to begin. An array with its depth
// beside it, since there is no heap, and so the loop goes until the depth is 0.
pub fn check_tree(words: &[u32], ranks: u32, most: usize, nesting: usize) -> Result<(), usize>
    requires { (ranks ≤ 3) × (nesting ≤ 64) }
    ensures { result ≡ check (record { ranks = ranks; length = most; nesting = nesting }) words.now }
{
    let mut left = [0u32; OPEN_LEVELS];
    left[0] = 1;
    let mut depth = 1;
    let mut at = 0;
    while depth != 0 {
        let k = left[depth - 1];
        if k == 0 {
            depth -= 1;
            continue;
        }
        if at == words.len() || !may_stand(words[at], at, depth, ranks, most, nesting) {
            return Err(at);
        }
        left[depth - 1] = k - 1;
        left[depth] = count_of(words[at]);
        depth += 1;
        at += 1;
    }
    if at < words.len() {
        return Err(at);
    }
    Ok(())
}

// Ok where the words are one term, else the first bad place.
pub fn check_term(words: &[u32]) -> Result<(), usize>
    ensures { result ≡ check term_limits words.now }
{
    check_tree(words, TERM_RANK, MOST_WORDS, MOST_NESTING)
}

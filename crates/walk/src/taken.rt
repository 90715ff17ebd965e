// The address that a node of the tree takes.
ghost use Rattle.std.specs.Prelude.{◌≡◌, ◌+◌, ◌*◌, ◌≤◌, length, drop};
ghost use Rattle.walk.specs.Told.Taken.{CaseTold, closed_taken, same_taken};

use term::list::{MOST_IDS, good_list};
use term::part::{is_closed, same_body};

// A case has so many words: a head word and an address.
pub const CASE_WORDS: usize = 2;

// The address of the first case whose head is this word.
pub fn find_case(tree: &[u32], from: usize, cases: usize, word: u32) -> Option<u32>
    requires { from + 2 * cases ≤ length tree.now }
    ensures { CaseTold word cases (drop from tree.now) result }
{
    for case in tree[from..from + CASE_WORDS * cases].chunks_exact(CASE_WORDS) {
        if case[0] == word {
            return Some(case[1]);
        }
    }
    None
}

// The address that Closed takes for the part that the words begin with; none where the node is damaged.
pub fn closed_taken(tree: &[u32], from: usize, k: usize, words: &[u32], d: u32) -> Option<u32>
    requires { from ≤ length tree.now }
    ensures { result ≡ closed_taken d words.now k (drop from tree.now) }
{
    if MOST_IDS < k || tree.len() - from <= k + 1 {
        return None;
    }
    let yes = from + k;
    let no = yes + 1;
    let list = &tree[from..yes];
    if !good_list(d, list) {
        return None;
    }
    Some(tree[if is_closed(words, d, list) { yes } else { no }])
}

// The address that Same takes for two parts; none where the node is damaged.
pub fn same_taken(
    tree: &[u32],
    from: usize,
    k: usize,
    words: &[u32],
    d: u32,
    others: &[u32],
    e: u32,
) -> Option<u32>
    requires { from ≤ length tree.now }
    ensures { result ≡ same_taken d words.now e others.now k (drop from tree.now) }
{
    if MOST_IDS < k || tree.len() - from <= k + k + 1 {
        return None;
    }
    let other = from + k;
    let yes = other + k;
    let no = yes + 1;
    let list = &tree[from..other];
    let next = &tree[other..yes];
    if !good_list(d, list) || !good_list(e, next) {
        return None;
    }
    let same = same_body(words, d, list, others, e, next);
    Some(tree[if same { yes } else { no }])
}

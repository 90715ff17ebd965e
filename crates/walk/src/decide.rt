// What a node says, decided from the walk's state, which is lent: no state is handed on here.
// Tree, term and walk stay three parameters: the walk is handed on by value, so a view of them would be made anew for each node.
ghost use Rattle.std.specs.Prelude.{◌≡◌, ◌&&◌, ltb, ◌<◌, length};
ghost use Rattle.walk.specs.Told.State.{Parted, Holds, GoTold, CaseTaken, SwitchDecided, ClosedDecided, SameDecided, LeafDecided, NodeDecided, or_damaged};

use crate::leaf::sound_leaf;
use crate::state::{FIRST, LEAF_WORDS, NODE_WORDS, SECOND, Stands, THIRD, Walk};
use crate::taken::{CASE_WORDS, closed_taken, find_case, same_taken};
use book::limits::{MOST_RULES, MOST_VARS};
use tree::node::{CLOSED, FAIL, LEAF, SAME, SWITCH};

// A Same has so many words before its lists.
const SAME_WORDS: usize = 4;

// The walk enters the place of a number and goes on at an address, only goes on there, or ends and stands so.
#[derive(Clone, Copy)]
pub enum Decision {
    Enter(usize, usize),
    Go(usize),
    Stop(Stands),
}

// Whether an address is later and inside.
fn leads_on(tree: &[u32], at: usize, to: usize) -> bool
    ensures { result ≡ (ltb at to && ltb to (length tree.now)) }
{
    at < to && to < tree.len()
}

// The walk goes on at an address that is later and inside; none where the node is damaged.
fn go_on(tree: &[u32], at: usize, to: u32) -> Option<Decision>
    ensures { GoTold tree.now at to (or_damaged result) }
{
    let next = to as usize;
    leads_on(tree, at, next).then_some(Decision::Go(next))
}

// A case is taken: its place is entered once, and the address is later and inside; none where the node is damaged.
fn take_case(tree: &[u32], at: usize, n: usize, entered: bool, to: u32) -> Option<Decision>
    ensures { CaseTaken tree.now at n entered to (or_damaged result) }
{
    let next = to as usize;
    (!entered && leads_on(tree, at, next)).then_some(Decision::Enter(n, next))
}

// Switch: place, cases, (head word, address) each, default address. None where it is damaged.
fn decide_switch(tree: &[u32], term: &[u32], walk: &Walk) -> Option<Decision>
    requires { Parted term.now × Holds term.now walk.now × (walk.now.at < length tree.now) }
    ensures { SwitchDecided tree.now term.now walk.now (or_damaged result) }
{
    let at = walk.at;
    if tree.len() - at < NODE_WORDS {
        return None;
    }
    let n = tree[at + FIRST] as usize;
    let cases = tree[at + SECOND] as usize;
    let from = at + NODE_WORDS;
    if walk.count <= n || tree.len() - from <= CASE_WORDS * cases {
        return None;
    }
    let default = from + CASE_WORDS * cases;
    let offset = walk.offsets[n] as usize;
    match find_case(tree, from, cases, term[offset]) {
        Some(to) => take_case(tree, at, n, walk.entered[n], to),
        None => go_on(tree, at, tree[default]),
    }
}

// Closed: place, k, list, yes, no. None where it is damaged.
fn decide_closed(tree: &[u32], term: &[u32], walk: &Walk) -> Option<Decision>
    requires { Parted term.now × Holds term.now walk.now × (walk.now.at < length tree.now) }
    ensures { ClosedDecided tree.now term.now walk.now (or_damaged result) }
{
    let at = walk.at;
    if tree.len() - at < NODE_WORDS {
        return None;
    }
    let n = tree[at + FIRST] as usize;
    let k = tree[at + SECOND] as usize;
    if walk.count <= n {
        return None;
    }
    let from = at + NODE_WORDS;
    let offset = walk.offsets[n] as usize;
    let to = closed_taken(tree, from, k, &term[offset..], walk.depths[n] as u32)?;
    go_on(tree, at, to)
}

// Same: place, place, k, list, list, yes, no. None where it is damaged.
fn decide_same(tree: &[u32], term: &[u32], walk: &Walk) -> Option<Decision>
    requires { Parted term.now × Holds term.now walk.now × (walk.now.at < length tree.now) }
    ensures { SameDecided tree.now term.now walk.now (or_damaged result) }
{
    let at = walk.at;
    if tree.len() - at < SAME_WORDS {
        return None;
    }
    let n = tree[at + FIRST] as usize;
    let m = tree[at + SECOND] as usize;
    let k = tree[at + THIRD] as usize;
    if walk.count <= n || walk.count <= m {
        return None;
    }
    let from = at + SAME_WORDS;
    let a = walk.offsets[n] as usize;
    let b = walk.offsets[m] as usize;
    let d = walk.depths[n] as u32;
    let e = walk.depths[m] as u32;
    let to = same_taken(tree, from, k, &term[a..], d, &term[b..], e)?;
    go_on(tree, at, to)
}

// Leaf: rule, n, how many arguments are set aside, then for each variable the place, k, the list. None where it is damaged. All is judged but the number
// set aside: that is judged where the walk has ended, by the root's count or by the book.
fn decide_leaf(tree: &[u32], term: &[u32], walk: &Walk) -> Option<Decision>
    requires { Parted term.now × Holds term.now walk.now × (walk.now.at < length tree.now) }
    ensures { LeafDecided tree.now term.now walk.now (or_damaged result) }
{
    let at = walk.at;
    if tree.len() - at < LEAF_WORDS || MOST_RULES <= tree[at + FIRST] {
        return None;
    }
    let n = tree[at + SECOND];
    let sound = n <= MOST_VARS && sound_leaf(tree, term, walk, at + LEAF_WORDS, n);
    sound.then_some(Decision::Stop(Stands::Rule))
}

// The node at the walk's address, by its tag; none where it is damaged.
fn decide_node(tree: &[u32], term: &[u32], walk: &Walk) -> Option<Decision>
    requires { Parted term.now × Holds term.now walk.now }
    ensures { NodeDecided tree.now term.now walk.now (or_damaged result) }
{
    match *tree.get(walk.at)? {
        FAIL => Some(Decision::Stop(Stands::NoRule)),
        LEAF => decide_leaf(tree, term, walk),
        SWITCH => decide_switch(tree, term, walk),
        CLOSED => decide_closed(tree, term, walk),
        SAME => decide_same(tree, term, walk),
        _ => None,
    }
}

// What the node at the walk's address says: the walk ends at a node that is damaged.
pub fn decide(tree: &[u32], term: &[u32], walk: &Walk) -> Decision
    requires { Parted term.now × Holds term.now walk.now }
    ensures { NodeDecided tree.now term.now walk.now result }
{
    decide_node(tree, term, walk).unwrap_or(Decision::Stop(Stands::Damaged))
}

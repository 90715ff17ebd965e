// A Leaf: rule, n, how many arguments are set aside, then for each variable the place, k, the list.
ghost use Rattle.std.specs.Prelude.{◌≡◌, ◌≤◌, length, get_or, drop, replicate};
ghost use Rattle.term.specs.Word.{count_of};
ghost use Rattle.walk.specs.Walk.{variables_in};
ghost use Rattle.walk.specs.Told.State.{sound_leaf, places_of, Parted, Holds, LeafSound, PartWritten, LeafWritten};

use crate::state::{LEAF_WORDS, SECOND, Walk};
use term::lent::clear;
use term::list::MOST_IDS;
use term::part::{is_closed, part_end, write_body};
use term::word::count_of;

// Where the k of a variable is, after its place.
pub const K_AT: usize = 1;

// A variable has so many words before its list.
pub const VARIABLE_WORDS: usize = 2;

// How many arguments the first of these words counts; 0 where there is none.
pub fn first_count(words: &[u32]) -> u32
    ensures { result ≡ count_of (get_or words.now 0 0) }
{
    words.first().map_or(0, |word| count_of(*word))
}

// Whether the variables from an address on are sound: each place is uncovered, each list is one for it, and each part has a body.
pub fn sound_leaf(tree: &[u32], term: &[u32], walk: &Walk, from: usize, n: u32) -> bool
    requires { Parted term.now × Holds term.now walk.now × (from ≤ length tree.now) }
    ensures { result ≡ sound_leaf (places_of term.now walk.now) (variables_in n (drop from tree.now)) }
{
    let mut at = from;
    for _ in 0..n {
        if tree.len() - at < VARIABLE_WORDS {
            return false;
        }
        let place = tree[at] as usize;
        let k = tree[at + K_AT] as usize;
        let list = at + VARIABLE_WORDS;
        if tree.len() - list < k || MOST_IDS < k || walk.count <= place {
            return false;
        }
        let offset = walk.offsets[place] as usize;
        let d = walk.depths[place] as u32;
        if !is_closed(&term[offset..], d, &tree[list..list + k]) {
            return false;
        }
        at = list + k;
    }
    true
}

// Writes the body of the part that the words begin with into a cleared slice. A body has as many words as its part, so no more are lent.
fn write_part(words: &[u32], d: u32, list: &[u32], out: &mut [u32]) -> Option<usize>
    requires { out.old ≡ replicate (length out.old) 0 }
    ensures { PartWritten d list.now words.now out.old out.new result }
{
    let long = part_end(words);
    if out.len() < long {
        return None;
    }
    write_body(words, d, list, &mut out[..long]).ok()
}

// Writes the bodies of the variables of a sound Leaf one after the other, and their lengths, into cleared slices. False where
// there is no room.
// It reads a variable's words itself: the Leaf is sound, and a reader that may find none would add a branch that gives up.
pub fn write_leaf(
    walk: &Walk,
    tree: &[u32],
    term: &[u32],
    bodies: &mut [u32],
    lengths: &mut [u32; 16],
) -> bool
    requires { Parted term.now × Holds term.now walk.now × LeafSound tree.now term.now walk.now × (bodies.old ≡ replicate (length bodies.old) 0)
        × (lengths.old ≡ replicate 16 0) }
    ensures { LeafWritten tree.now term.now walk.now (length bodies.old) bodies.new lengths.new result }
{
    let node = walk.at;
    let vars = tree[node + SECOND] as usize;
    let mut at = node + LEAF_WORDS;
    let mut to = 0;
    for x in 0..vars {
        let place = tree[at] as usize;
        let list = at + VARIABLE_WORDS;
        let end = list + tree[at + K_AT] as usize;
        let offset = walk.offsets[place] as usize;
        let d = walk.depths[place] as u32;
        match write_part(&term[offset..], d, &tree[list..end], &mut bodies[to..]) {
            Some(n) => {
                lengths[x] = n as u32;
                to += n;
                at = end;
            }
            None => {
                clear(bodies);
                clear(lengths);
                return false;
            }
        }
    }
    true
}

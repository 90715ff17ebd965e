// The walk's state, by value: the places uncovered so far, and how the walk stands.
ghost use Rattle.std.specs.Prelude.{◌≡◌, ◌≤◌, ◌<◌, false, length, get_or};
ghost use Rattle.walk.specs.Told.State.{stopped_as, moved_to, entry_at, Parted, Holds, EnterTold, WalkTold};

use crate::decide::{Decision, decide};
use term::part::part_end;
use term::renumber::inside_word;
use term::word::count_of;

// Each uncovered place is another part of the term.
pub const PLACES: usize = 4096;

// The visits where nothing was walked.
pub const NO_VISITS: u64 = 0;

// How a walk stands: it goes on at the address, or ended there.
#[derive(Clone, Copy, PartialEq, Eq)]
pub enum Stands {
    Going,
    NoRule,
    Rule,
    Damaged,
}

// The words of a node after its tag.
pub const FIRST: usize = 1;

pub const SECOND: usize = 2;

pub const THIRD: usize = 3;

// A Switch or Closed has so many words before its cases or list.
pub const NODE_WORDS: usize = 3;

// A Leaf has so many words before its variables.
pub const LEAF_WORDS: usize = 4;

// For each uncovered place the offset of its part in the term, the abstractions passed, and whether it was entered; and the nodes visited.
// Three lists and no list of places: Holds, place_in, moved_to and entry_at of specs/Told/State.antt speak of each, and their meaning stays.
#[derive(Clone, Copy)]
pub struct Walk {
    pub offsets: [u16; PLACES],
    pub depths: [u8; PLACES],
    pub entered: [bool; PLACES],
    pub count: usize,
    pub at: usize,
    pub stands: Stands,
    pub visits: u64,
}

impl Walk {
    // The root is the place 0.
    pub fn new() -> Walk
        ensures { result ≡ entry_at }
    {
        Walk {
            offsets: [0u16; PLACES],
            depths: [0u8; PLACES],
            entered: [false; PLACES],
            count: 1,
            at: 0,
            stands: Stands::Going,
            visits: NO_VISITS,
        }
    }

    // The walk ends at the node where it is.
    pub fn stop(mut self, stands: Stands) -> Walk
        ensures { result ≡ stopped_as self stands }
    {
        self.stands = stands;
        self
    }

    // What a node tests sends the walk on to an address, and uncovers nothing.
    pub fn test(mut self, to: usize) -> Walk
        ensures { result ≡ moved_to self to }
    {
        self.at = to;
        self
    }

    // The place of this number is entered: its children are appended, and the walk goes on at an address.
    pub fn enter(mut self, term: &[u32], n: usize, to: usize) -> Walk
        requires { Parted term.now × Holds term.now self × (n < self.count) × (get_or self.entered n false ≡ false) }
        ensures { EnterTold term.now self n to result }
    {
        let offset = self.offsets[n] as usize;
        let word = term[offset];
        let inner = inside_word(word, self.depths[n] as u32);
        self.entered[n] = true;
        let mut count = self.count;
        let mut from = offset + 1;
        let more = count_of(word);
        // A place and the offset of its part run along together.
        for _ in 0..more {
            self.offsets[count] = from as u16;
            self.depths[count] = inner as u8;
            self.entered[count] = false;
            from += part_end(&term[from..]);
            count += 1;
        }
        self.count = count;
        self.at = to;
        self
    }
}

// Walks the tree over the part that the words begin with, node by node, until it ends. What a node says is decided from the state that is
// lent, so the state is handed on once for a node, and each turn visits one.
pub fn walk_tree(tree: &[u32], term: &[u32]) -> Walk
    requires { Parted term.now × (0 < length term.now) × (length tree.now ≤ 16384) }
    ensures { WalkTold tree.now term.now result }
{
    let mut walk = Walk::new();
    // A while: document 01's walk goes on as long as its state says so.
    while walk.stands == Stands::Going {
        let decision = decide(tree, term, &walk);
        walk.visits += 1;
        match decision {
            Decision::Enter(n, to) => walk = walk.enter(term, n, to),
            Decision::Go(to) => walk = walk.test(to),
            Decision::Stop(stands) => walk = walk.stop(stands),
        }
    }
    walk
}

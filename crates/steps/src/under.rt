// Where a word of a right side is written: the abstractions around it, and which of them are the right side's own; and where a word of a body is.
ghost use Rattle.std.specs.Prelude.{ℕ, ◌≡◌, ◌+◌, ◌-◌, ◌≤◌, ◌<◌, get_or};

use book::limits::SIDE_NESTING;
use term::renumber::{NO_ID, inside_word};
use term::word::{ABSTRACTION, kind_of};

// So many abstractions are around, and the right side has so many of them; for each of these, the outermost first, those around it.
// What is written here may nest so many levels: with the abstractions around, no more than a term may nest.
// An array with its length beside it, since there is no heap.
#[derive(Clone, Copy)]
pub struct Under {
    pub depth: u32,
    pub own: usize,
    pub marks: [u32; SIDE_NESTING],
    pub levels: u32,
    ghost few: { own ≤ 16 },
    ghost low: { (j : ℕ) → j < own → get_or marks j 0 < depth },
    ghost shallow: { depth + levels ≤ 64 },
}

impl Under {
    ghost use Rattle.steps.specs.Told.Under.{place, at_root, deeper_by, inside_right, ids_in};

    // No abstraction is around the root.
    pub fn root(levels: u32) -> Under
        requires { levels ≤ 64 }
        ensures { place result ≡ at_root levels }
    {
        Under {
            depth: 0,
            own: 0,
            marks: [0u32; SIDE_NESTING],
            levels,
        }
    }

    // Under e abstractions of a body too.
    pub fn deeper(mut self, e: u32) -> Under
        requires { self.depth + e + self.levels ≤ 64 }
        ensures { place result ≡ deeper_by e (place self) }
    {
        self.depth += e;
        self
    }

    // Where the children of a word of the right side are written.
    pub fn inside(mut self, w: u32) -> Under
        requires { (self.own < 16) × (0 < self.levels) }
        ensures { place result ≡ inside_right w (place self) }
    {
        self.levels -= 1;
        if kind_of(w) != ABSTRACTION {
            return self;
        }
        self.marks[self.own] = self.depth;
        self.own += 1;
        self.depth += 1;
        self
    }

    // The id that a variable of the right side has here.
    pub fn own_id(self, i: u32) -> u32
        ensures { 1 ≤ i → i ≤ self.own → result ≡ get_or (ids_in (place self)) (i - 1) 0 }
    {
        let back = i as usize;
        if back == 0 || self.own < back {
            return NO_ID;
        }
        self.depth - self.marks[self.own - back]
    }
}

// Under e abstractions of the body of a pattern variable, which stands there with so many children, at an offset of the right side.
// These too count to what a term may nest.
#[derive(Clone, Copy)]
pub struct Within {
    pub under: Under,
    pub e: u32,
    pub count: u32,
    pub at: usize,
    ghost shallow: { under.depth + e + under.levels ≤ 64 },
}

impl Within {
    ghost use Rattle.steps.specs.Told.Under.{InsideBody};

    // Where the children of a word of the body are written.
    pub fn inside(mut self, w: u32) -> Within
        requires { 0 < self.under.levels }
        ensures { InsideBody w self result }
    {
        self.under.levels -= 1;
        self.e = inside_word(w, self.e);
        self
    }
}

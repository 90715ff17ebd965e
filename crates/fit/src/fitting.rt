// The walk over a left side and a term, tree beside tree. A table keeps each variable's first occurrence.
ghost use Rattle.std.specs.Prelude.{false, ◌≡◌, ◌+◌, ◌≤◌, ◌<◌, length, get_or};
ghost use Rattle.term.specs.Word.{kind_of, ident_of};
ghost use Rattle.fit.specs.Told.Told.{FirstTold, recorded, FirstSame, SharesTold, VariableTold, FitTold};

use book::ids::ids_of;
use term::part::{is_closed, part_end, same_body};
use term::renumber::inside_word;
use term::word::{PATTERN, count_of, id_of, kind_of};

// The table has for each variable one more than the offset of its first part, the offset of its word and the abstractions passed. A list of
// words, as `slot`, `Knows` and `recorded` of specs/Told speak of it.
pub const TABLE: usize = 48;

const PER_VARIABLE: usize = 3;

const PART: usize = 0;

const WORD: usize = 1;

const DEPTH: usize = 2;

// What the table has of a variable that was not met yet.
const NOT_MET: u32 = 0;

// A variable's first occurrence: where its part begins, the abstractions passed, and its list of k ids.
#[derive(Clone, Copy)]
pub struct First {
    pub at: usize,
    pub depth: u32,
    pub k: usize,
    pub ids: [u32; 4],
}

// A left side, the number of its variables, and the term that is walked beside it, each within its limits.
#[derive(Clone, Copy)]
pub struct Pair<'a> {
    pub vars: u32,
    pub left: &'a [u32],
    pub term: &'a [u32],
    ghost few: { vars ≤ 16 },
    ghost left_begins: { 0 < length left.now },
    ghost left_short: { length left.now ≤ 64 },
    ghost term_begins: { 0 < length term.now },
    ghost term_short: { length term.now ≤ 4096 },
}

// Keeps a variable's first occurrence.
fn record_first(table: &mut [u32; TABLE], x: usize, part: u32, word: u32, depth: u32)
    requires { x < 16 }
    ensures { table.new ≡ recorded table.old x part word depth }
{
    let own = PER_VARIABLE * x;
    table[own] = part;
    table[own + WORD] = word;
    table[own + DEPTH] = depth;
}

impl Pair<'_> {
    // The first occurrence of a variable that was met.
    pub fn first_of(&self, table: &[u32; TABLE], x: usize) -> Option<First>
        requires { x < 16 }
        ensures { FirstTold self.now.left.now self.now.term.now table.now x result }
    {
        let own = PER_VARIABLE * x;
        if table[own + PART] == NOT_MET {
            return None;
        }
        let at = table[own + PART] as usize - 1;
        if self.term.len() < at {
            return None;
        }
        let word = table[own + WORD] as usize;
        if self.left.len() <= word {
            return None;
        }
        let k = count_of(self.left[word]) as usize;
        let ids = ids_of(&self.left[word + 1..], k)?;
        let depth = table[own + DEPTH];
        Some(First { at, depth, k, ids })
    }

    // Whether the part at `to` has the body of its variable's first occurrence.
    fn same_as_first(&self, table: &[u32; TABLE], x: usize, d: u32, list: &[u32], to: usize) -> bool
        requires { (x < 16) × (to ≤ length self.now.term.now) }
        ensures { FirstSame self.now.left.now self.now.term.now table.now x d list.now to result }
    {
        let Some(first) = self.first_of(table, x) else {
            return false;
        };
        let list_of_first = &first.ids[..first.k];
        same_body(
            &self.term[first.at..],
            first.depth,
            list_of_first,
            &self.term[to..],
            d,
            list,
        )
    }

    // Whether the part at `to` has a body for the list of x, whose word stands at `at`, and shares it with the first occurrence of x. Where
    // there was none before, it becomes the first.
    fn shares_body(
        &self,
        at: usize,
        to: usize,
        d: u32,
        list: &[u32],
        x: usize,
        table: &mut [u32; TABLE],
    ) -> bool
        requires { (at < length self.now.left.now) × (to < length self.now.term.now)
            × (kind_of (get_or self.now.left.now at 0) ≡ 3) × (x ≡ ident_of (get_or self.now.left.now at 0)) × (x < 16) }
        ensures { SharesTold d self.now.left.now at self.now.term.now to list.now table.old table.new result }
    {
        if !is_closed(&self.term[to..], d, list) {
            return false;
        }
        if table[PER_VARIABLE * x + PART] == NOT_MET {
            record_first(table, x, (to + 1) as u32, at as u32, d);
            return true;
        }
        self.same_as_first(table, x, d, list, to)
    }

    // One pattern variable, at `at`, over the tree of the term at `to`.
    fn fit_variable(
        &self,
        d: u32,
        at: usize,
        to: usize,
        table: &mut [u32; TABLE],
    ) -> Option<(usize, usize)>
        requires { (at < length self.now.left.now) × (to < length self.now.term.now)
            × (kind_of (get_or self.now.left.now at 0) ≡ 3) }
        ensures { VariableTold self.now.vars d self.now.left.now at self.now.term.now to table.old table.new result }
    {
        let w = self.left[at];
        let x = id_of(w) as usize;
        let k = count_of(w) as usize;
        let next = at + 1;
        let ids = ids_of(&self.left[next..], k)?;
        if self.vars as usize <= x {
            return None;
        }
        if !self.shares_body(at, to, d, &ids[..k], x, table) {
            return None;
        }
        Some((next + k, to + part_end(&self.term[to..])))
    }

    // One tree of a left side, at `at` under d abstractions, over the tree of the term at `to`: the offsets after both, where it fits.
    // Abstractions and levels stay two numbers with a bound on their sum: both change at each level, the one by the word.
    #[cycle(fitting)]
    fn fit_tree(
        &self,
        d: u32,
        levels: u32,
        at: usize,
        to: usize,
        table: &mut [u32; TABLE],
    ) -> Option<(usize, usize)>
        requires { d + levels ≤ 64 }
        ensures { FitTold self.now.vars d levels 1 self.now.left.now at self.now.term.now to table.old table.new result }
    {
        if levels == 0 {
            return None;
        }
        let w = *self.left.get(at)?;
        let v = *self.term.get(to)?;
        if kind_of(w) == PATTERN {
            return self.fit_variable(d, at, to, table);
        }
        if w != v {
            return None;
        }
        let inner = inside_word(w, d);
        let below = levels - 1;
        let k = count_of(w);
        self.fit_row(inner, below, k, at + 1, to + 1, table)
    }

    // `count` trees of a left side, over as many of the term.
    #[cycle(fitting)]
    pub fn fit_row(
        &self,
        d: u32,
        levels: u32,
        count: u32,
        at: usize,
        to: usize,
        table: &mut [u32; TABLE],
    ) -> Option<(usize, usize)>
        requires { d + levels ≤ 64 }
        ensures { FitTold self.now.vars d levels count self.now.left.now at self.now.term.now to table.old table.new result }
    {
        let mut a = at;
        let mut b = to;
        for _ in 0..count {
            (a, b) = self.fit_tree(d, levels, a, b, table)?;
        }
        Some((a, b))
    }
}

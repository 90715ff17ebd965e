// The root Switch: for each symbol in order of first appearance, every count from its smallest up to the most arguments.
ghost use Rattle.std.specs.Prelude.{List, ◌≡◌, ℕ, ◌+◌, ◌*◌, ◌<◌, eqb, get_or};
ghost use Rattle.compiler.specs.Told.Tables.{Changed, first_at, unless, struck_rows, has_symbol, lesser_of, smallest_from, root_word, count_roots, leaves_out, size_at};
ghost use Rattle.compiler.specs.Told.Stands.{TreeKept};
ghost use Rattle.compiler.specs.Told.RootTold.{RootReady, RootCasesReady, RootHead, RootCaseTold, RootCasesTold, RootTold};

use crate::nodes::{OWN, tree_of};
use crate::numbers::number_rows;
use crate::table::{ENTERED, FIXED, FREE, MARKS, SPOTS, first_row, forget, unmark};
use book::limits::{MOST_RULES_LONG, MOST_SIDE};
use term::lent::put;
use term::word::{COUNT, count_of, id_of};
use tree::node::{FAIL, SWITCH};

// How many counts a symbol has: from 0 to 15 arguments.
const COUNTS: usize = 16;

// The cases that could be: for each row every count.
const CASES: usize = MOST_RULES_LONG * COUNTS;

// The place of the root.
const ROOT_PLACE: u32 = 0;

// Whether row r is not struck and has this symbol at its root.
fn has_symbol(fixed: &[u32; FIXED], marks: &[u32; MARKS], r: usize, i: u32) -> bool
    requires { r < 64 }
    ensures { result ≡ has_symbol fixed.now marks.now i r }
{
    marks[r] == FREE && id_of(fixed[r * MOST_SIDE]) == i
}

// Whether no row before r has this symbol.
fn is_first(fixed: &[u32; FIXED], marks: &[u32; MARKS], r: usize, i: u32) -> bool
    requires { r < 64 }
    ensures { result ≡ eqb (first_at (has_symbol fixed.now marks.now i) 0 r) r }
{
    !(0..r).any(|q| has_symbol(fixed, marks, q, i))
}

// The lesser of `best` and the count of row r, where it has this symbol.
fn lesser(fixed: &[u32; FIXED], marks: &[u32; MARKS], r: usize, i: u32, best: u32) -> u32
    requires { r < 64 }
    ensures { result ≡ lesser_of (has_symbol fixed.now marks.now i r) (size_at fixed.now (r * 64)) best }
{
    let count = count_of(fixed[r * MOST_SIDE]);
    if has_symbol(fixed, marks, r, i) && count <= best {
        count
    } else {
        best
    }
}

// The smallest count of the symbol at a root, COUNTS where no row has it.
// It stays a number: the definitions lesser_of and smallest_from compare with it, and name the 16.
fn smallest_count(fixed: &[u32; FIXED], marks: &[u32; MARKS], i: u32) -> u32
    ensures { result ≡ smallest_from fixed.now marks.now i 0 64 }
{
    let mut best = COUNTS as u32;
    for r in 0..MOST_RULES_LONG {
        best = lesser(fixed, marks, r, i, best);
    }
    best
}

// The head of the case number k: the symbol of row k / COUNTS with k % COUNTS arguments, where the root Switch has such a case.
#[tactic(auto, unfolding(crate::specs::Told::Tables::root_word))]
fn root_word(fixed: &[u32; FIXED], marks: &[u32; MARKS], k: usize) -> Option<u32>
    requires { k < 1024 }
    ensures { result ≡ unless 33554432 (root_word fixed.now marks.now k) }
{
    let r = k / COUNTS;
    let i = id_of(fixed[r * MOST_SIDE]);
    let count = (k % COUNTS) as u32;
    if marks[r] == FREE
        && is_first(fixed, marks, r, i)
        && smallest_count(fixed, marks, i) <= count
    {
        Some(count * COUNT + i)
    } else {
        None
    }
}

// How many cases the root Switch has.
fn count_roots(fixed: &[u32; FIXED], marks: &[u32; MARKS]) -> u32
    ensures { result ≡ count_roots fixed.now marks.now }
{
    (0..CASES)
        .filter(|k| root_word(fixed, marks, *k).is_some())
        .count() as u32
}

// Whether row r does not cover the head w: it has another symbol, or more arguments.
fn leaves_out(fixed: &[u32; FIXED], r: usize, w: u32) -> bool
    requires { r < 64 }
    ensures { result ≡ leaves_out fixed.now w r }
{
    let own = fixed[r * MOST_SIDE];
    id_of(own) != id_of(w) || count_of(w) < count_of(own)
}

// The mark of row r after the rows that do not cover w were struck.
// Its own function, as having_mark of constraints says.
fn uncovered_mark(fixed: &[u32; FIXED], marks: &[u32; MARKS], r: usize, w: u32) -> u32
    requires { r < 64 }
    ensures { result ≡ struck_rows (leaves_out fixed.now w) 17 r (get_or marks.now r 0) }
{
    if marks[r] == FREE && leaves_out(fixed, r, w) {
        OWN
    } else {
        marks[r]
    }
}

// Strikes the rows that do not cover w.
fn drop_uncovered(fixed: &[u32; FIXED], marks: &mut [u32; MARKS], w: u32)
    ensures { Changed (struck_rows (leaves_out fixed.now w) 17) marks.old marks.new }
{
    for r in 0..MOST_RULES_LONG {
        marks[r] = uncovered_mark(fixed, marks, r, w);
    }
}

// Writes the tree of one case of the root, whose head is w.
// Apart from case_tree: rows are struck by symbol and count, and the mark of the root's place is one more than its arguments.
fn root_case(
    fixed: &[u32; FIXED],
    nums: &mut [u32; SPOTS],
    marks: &mut [u32; MARKS],
    out: &mut [u32],
    limit: usize,
    at: usize,
    w: u32,
) -> Option<usize>
    requires { RootCasesReady fixed.now nums.old marks.old limit at × RootHead w }
    ensures { ((book : List ℕ) → RootCaseTold book fixed.now nums.old marks.old limit at w out.old out.new result)
        × TreeKept nums.old marks.old limit at nums.new marks.new result }
{
    drop_uncovered(fixed, marks, w);
    number_rows(fixed, nums, marks, ROOT_PLACE, 1);
    let more = count_of(w);
    marks[ENTERED] = more + 1;
    let next = tree_of(fixed, nums, marks, out, limit, 1 + more, at)?;
    forget(nums, marks, 1);
    marks[ENTERED] = FREE;
    unmark(marks, OWN);
    Some(next)
}

// Writes the cases of the root: heads and addresses from `slot` on, their trees from `at` on.
fn root_cases(
    fixed: &[u32; FIXED],
    nums: &mut [u32; SPOTS],
    marks: &mut [u32; MARKS],
    out: &mut [u32],
    limit: usize,
    slot: usize,
    at: usize,
) -> Option<usize>
    requires { RootCasesReady fixed.now nums.old marks.old limit at × (slot + 1 + 2 * count_roots fixed.now marks.old ≡ at) }
    ensures { ((book : List ℕ) → RootCasesTold book fixed.now nums.old marks.old limit slot at out.old out.new result)
        × TreeKept nums.old marks.old limit at nums.new marks.new result }
{
    let mut to = slot;
    let mut a = at;
    for k in 0..CASES {
        let Some(w) = root_word(fixed, marks, k) else {
            continue;
        };
        put(out, to, w);
        put(out, to + 1, a as u32);
        a = root_case(fixed, nums, marks, out, limit, a, w)?;
        to += 2;
    }
    put(out, to, a as u32);
    Some(a)
}

// Writes the tree of the rows that are not struck, where nothing is entered; the offset after it. None where it goes past the limit.
pub fn root_tree(
    fixed: &[u32; FIXED],
    nums: &mut [u32; SPOTS],
    marks: &mut [u32; MARKS],
    out: &mut [u32],
    limit: usize,
) -> Option<usize>
    requires { RootReady fixed.now nums.old marks.old limit }
    ensures { (book : List ℕ) → RootTold book fixed.now nums.old marks.old limit out.old out.new result }
{
    if first_row(marks).is_none() {
        put(out, 0, FAIL);
        return Some(1);
    }
    let cases = count_roots(fixed, marks);
    put(out, 0, SWITCH);
    put(out, 1, ROOT_PLACE);
    put(out, 2, cases);
    let first = 4 + 2 * cases as usize;
    let next = root_cases(fixed, nums, marks, out, limit, 3, first)?;
    put(out, next, FAIL);
    Some(next + 1)
}

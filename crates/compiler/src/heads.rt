// The sub-patterns of rows at uncovered places. The numbers table has for each spot one more than the number of its place, 0 where it is not uncovered.
ghost use Rattle.std.specs.Prelude.{◌≡◌, ℕ, ◌*◌, ◌≤◌, ◌<◌, eqb, get_or};
ghost use Rattle.compiler.specs.Told.Tables.{Changed, first_at, unless, head_or, place_of, struck_rows, spot_at, head_kind, head_word, lower_of, lowest_from, has_head, has_other, new_head, count_heads};

use crate::table::{ENTERED, FIXED, FREE, MARKS, NO_HEAD, SPOTS};
use book::limits::{MOST_RULES_LONG, MOST_SIDE};
use term::word::{ABSTRACTION, SYMBOL, kind_of};

// The spot of a rule at the place with this number.
pub fn spot_at(nums: &[u32; SPOTS], r: usize, n: u32) -> Option<usize>
    requires { (r < 64) × (n < 4096) }
    ensures { result ≡ unless 4096 (spot_at nums.now r n) }
{
    let start = r * MOST_SIDE;
    (start..start + MOST_SIDE).find(|k| nums[*k] == n + 1)
}

// Whether a word is a symbol or an abstraction.
pub fn is_head(w: u32) -> bool
    ensures { result ≡ head_kind w }
{
    let kind = kind_of(w);
    kind == SYMBOL || kind == ABSTRACTION
}

// The symbol or abstraction of a rule at the place with this number.
#[tactic(auto, using(crate::proofs::TableLaws::spot_found))]
pub fn head_at(fixed: &[u32; FIXED], nums: &[u32; SPOTS], r: usize, n: u32) -> Option<u32>
    requires { (r < 64) × (n < 4096) }
    ensures { result ≡ unless 33554432 (head_word fixed.now nums.now r n) }
{
    let k = spot_at(nums, r, n)?;
    let w = fixed[k];
    if is_head(w) { Some(w) } else { None }
}

// The lower of two numbers, of which the first counts only where it is open; 0 is no number.
// It stays a number, as in the numbers table: the definitions lower_of and lowest_from name the 0.
fn lower(marks: &[u32; MARKS], n: u32, best: u32) -> u32
    requires { n ≤ 4096 }
    ensures { result ≡ lower_of marks.now n best }
{
    if n == 0 || marks[ENTERED + n as usize - 1] != FREE {
        return best;
    }
    if best == 0 || n <= best { n } else { best }
}

// The same where spot k has a head.
fn lower_at(
    fixed: &[u32; FIXED],
    nums: &[u32; SPOTS],
    marks: &[u32; MARKS],
    k: usize,
    best: u32,
) -> u32
    requires { (k < 4096) × (get_or nums.now k 0 ≤ 4096) }
    ensures { result ≡ lowest_from fixed.now nums.now marks.now k 1 best }
{
    if is_head(fixed[k]) {
        lower(marks, nums[k], best)
    } else {
        best
    }
}

// The number of a rule's lowest open place with a symbol or abstraction.
pub fn lowest_open(
    fixed: &[u32; FIXED],
    nums: &[u32; SPOTS],
    marks: &[u32; MARKS],
    r: usize,
) -> Option<u32>
    requires { (r < 64) × ((k : ℕ) → get_or nums.now k 0 ≤ 4096) }
    ensures { result ≡ place_of (lowest_from fixed.now nums.now marks.now (r * 64) 64 0) }
{
    let mut best: u32 = 0;
    for o in 0..MOST_SIDE {
        best = lower_at(fixed, nums, marks, r * MOST_SIDE + o, best);
    }
    best.checked_sub(1)
}

// Whether row r is not struck and has this head at the place. Where it has none, the word NO_HEAD is compared, so that w may be any word.
fn has_head(
    fixed: &[u32; FIXED],
    nums: &[u32; SPOTS],
    marks: &[u32; MARKS],
    r: usize,
    n: u32,
    w: u32,
) -> bool
    requires { (r < 64) × (n < 4096) }
    ensures { result ≡ has_head fixed.now nums.now marks.now n w r }
{
    marks[r] == FREE && head_at(fixed, nums, r, n).unwrap_or(NO_HEAD) == w
}

// Whether no row before r has this head at the place.
fn is_new(
    fixed: &[u32; FIXED],
    nums: &[u32; SPOTS],
    marks: &[u32; MARKS],
    r: usize,
    n: u32,
    w: u32,
) -> bool
    requires { (r < 64) × (n < 4096) }
    ensures { result ≡ eqb (first_at (has_head fixed.now nums.now marks.now n w) 0 r) r }
{
    !(0..r).any(|q| has_head(fixed, nums, marks, q, n, w))
}

// The head that first appears in row r. Not in line, so that a level of tree_of takes less of the stack.
#[inline(never)]
pub fn new_head(
    fixed: &[u32; FIXED],
    nums: &[u32; SPOTS],
    marks: &[u32; MARKS],
    r: usize,
    n: u32,
) -> Option<u32>
    requires { (r < 64) × (n < 4096) }
    ensures { result ≡ unless 33554432 (new_head fixed.now nums.now marks.now n r) }
{
    if marks[r] != FREE {
        return None;
    }
    let w = head_at(fixed, nums, r, n)?;
    if is_new(fixed, nums, marks, r, n, w) {
        Some(w)
    } else {
        None
    }
}

// How many heads there are at the place.
pub fn count_heads(fixed: &[u32; FIXED], nums: &[u32; SPOTS], marks: &[u32; MARKS], n: u32) -> u32
    requires { n < 4096 }
    ensures { result ≡ count_heads fixed.now nums.now marks.now n }
{
    (0..MOST_RULES_LONG)
        .filter(|r| new_head(fixed, nums, marks, *r, n).is_some())
        .count() as u32
}

// Whether row r has another head than w at the place.
fn has_other(fixed: &[u32; FIXED], nums: &[u32; SPOTS], r: usize, n: u32, w: Option<u32>) -> bool
    requires { (r < 64) × (n < 4096) }
    ensures { result ≡ has_other fixed.now nums.now n (head_or w) r }
{
    let g = head_at(fixed, nums, r, n);
    g.is_some() && g != w
}

// The mark of row r after the rows with another head than w were struck.
// Its own function, as having_mark of constraints says.
fn other_mark(
    fixed: &[u32; FIXED],
    nums: &[u32; SPOTS],
    marks: &[u32; MARKS],
    r: usize,
    n: u32,
    w: Option<u32>,
    mark: u32,
) -> u32
    requires { (r < 64) × (n < 4096) }
    ensures { result ≡ struck_rows (has_other fixed.now nums.now n (head_or w)) mark r (get_or marks.now r 0) }
{
    if marks[r] == FREE && has_other(fixed, nums, r, n, w) {
        mark
    } else {
        marks[r]
    }
}

// Strikes the rows with another head than w at the place; where w is None, every row with a head.
pub fn drop_others(
    fixed: &[u32; FIXED],
    nums: &[u32; SPOTS],
    marks: &mut [u32; MARKS],
    n: u32,
    w: Option<u32>,
    mark: u32,
)
    requires { n < 4096 }
    ensures { Changed (struck_rows (has_other fixed.now nums.now n (head_or w)) mark) marks.old marks.new }
{
    for r in 0..MOST_RULES_LONG {
        marks[r] = other_mark(fixed, nums, marks, r, n, w, mark);
    }
}

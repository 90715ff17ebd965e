// The constraints of rows.
ghost use Rattle.std.specs.Prelude.{◌≡◌, ◌+◌, ◌/◌, ◌<◌, get_or};
ghost use Rattle.compiler.specs.Told.Tables.{Changed, unless, marks_of, mark_at, mark_or, is_variable, first_spot, is_closed, is_same, is_constraint, is_left, first_from, first_constraint, words_at, in_list, among_at, same_list, same_closed, same_same, same_name, left_same, row_has, struck_rows, struck_same, only_at, of_free_row, unmarked};

use crate::constraint::{Constraint, Kind};
use crate::table::{CLOSED_MARKS, DEPTHS, FIXED, FREE, MARKS, SAME_MARKS, SPOTS, without_mark};
use book::limits::{MOST_RULES_LONG, MOST_SIDE};
use term::word::{PATTERN, count_of, id_of, kind_of};

impl Kind {
    // The marks of the constraints of this kind begin here.
    fn marks(self) -> usize
        ensures { result ≡ marks_of self }
    {
        match self {
            Kind::Closed => CLOSED_MARKS,
            Kind::Same => SAME_MARKS,
        }
    }
}

// Whether variable x stands at spot k.
// Of a spot, not of a word as in book: is_variable of specs/Told/Tables.antt is told the table.
pub fn is_variable(fixed: &[u32; FIXED], x: u32, k: usize) -> bool
    requires { k < 4096 }
    ensures { result ≡ is_variable fixed.now x k }
{
    kind_of(fixed[k]) == PATTERN && id_of(fixed[k]) == x
}

// The first spot of a rule with the variable of spot k.
pub fn first_spot(fixed: &[u32; FIXED], k: usize) -> usize
    requires { k < 4096 }
    ensures { result ≡ first_spot fixed.now k }
{
    let x = id_of(fixed[k]);
    (k / MOST_SIDE * MOST_SIDE..k)
        .find(|j| is_variable(fixed, x, *j))
        .unwrap_or(k)
}

// Whether the occurrence at spot k has a closedness constraint.
fn is_closed(fixed: &[u32; FIXED], k: usize) -> bool
    requires { k < 4096 }
    ensures { result ≡ is_closed fixed.now k }
{
    kind_of(fixed[k]) == PATTERN && count_of(fixed[k]) != fixed[DEPTHS + k]
}

// Whether it has an equality constraint: it is not the first of its variable.
fn is_same(fixed: &[u32; FIXED], k: usize) -> bool
    requires { k < 4096 }
    ensures { result ≡ is_same fixed.now k }
{
    kind_of(fixed[k]) == PATTERN && first_spot(fixed, k) != k
}

// Whether the occurrence at spot k has a constraint of this kind.
#[tactic(auto, using(crate::proofs::KindLaws::closed_constraint, crate::proofs::KindLaws::same_constraint))]
fn is_constraint(fixed: &[u32; FIXED], kind: Kind, k: usize) -> bool
    requires { k < 4096 }
    ensures { result ≡ is_constraint fixed.now (marks_of kind + k) }
{
    match kind {
        Kind::Closed => is_closed(fixed, k),
        Kind::Same => is_same(fixed, k),
    }
}

// Whether it has one that is not struck.
fn is_left(fixed: &[u32; FIXED], marks: &[u32; MARKS], kind: Kind, k: usize) -> bool
    requires { k < 4096 }
    ensures { result ≡ is_left fixed.now marks.now (marks_of kind + k) }
{
    marks[kind.marks() + k] == FREE && is_constraint(fixed, kind, k)
}

// The first constraint of this kind in row r that is not struck.
fn first_from(
    fixed: &[u32; FIXED],
    marks: &[u32; MARKS],
    kind: Kind,
    r: usize,
) -> Option<Constraint>
    requires { r < 64 }
    ensures { mark_or result ≡ unless 0 (first_from fixed.now marks.now (marks_of kind) r) }
{
    let start = r * MOST_SIDE;
    let spot = (start..start + MOST_SIDE).find(|k| is_left(fixed, marks, kind, *k))?;
    Some(Constraint { kind, spot })
}

// The first constraint of row r that is not struck.
pub fn first_constraint(fixed: &[u32; FIXED], marks: &[u32; MARKS], r: usize) -> Option<Constraint>
    requires { r < 64 }
    ensures { mark_or result ≡ unless 0 (first_constraint fixed.now marks.now r) }
{
    first_from(fixed, marks, Kind::Closed, r).or_else(|| first_from(fixed, marks, Kind::Same, r))
}

// The words of the list at spot k.
pub fn list_at(fixed: &[u32; FIXED], k: usize) -> &[u32]
    requires { k < 4096 }
    ensures { result.now ≡ words_at fixed.now k }
{
    &fixed[k + 1..k + 1 + count_of(fixed[k]) as usize]
}

// Whether a variable is in the list at spot k.
fn in_list(fixed: &[u32; FIXED], w: u32, k: usize) -> bool
    requires { k < 4096 }
    ensures { result ≡ in_list fixed.now w k }
{
    list_at(fixed, k).contains(&w)
}

// Whether each id of the list at spot a is in the list at spot b.
fn among(fixed: &[u32; FIXED], a: usize, b: usize) -> bool
    requires { (a < 4096) × (b < 4096) }
    ensures { result ≡ among_at fixed.now a b }
{
    list_at(fixed, a).iter().all(|w| in_list(fixed, *w, b))
}

// Whether the lists at two spots are the same.
fn same_list(fixed: &[u32; FIXED], a: usize, b: usize) -> bool
    requires { (a < 4096) × (b < 4096) }
    ensures { result ≡ same_list fixed.now a b }
{
    list_at(fixed, a) == list_at(fixed, b)
}

#[tactic(auto, unfolding(crate::specs::Told::Tables::same_closed))]
fn same_closed(fixed: &[u32; FIXED], nums: &[u32; SPOTS], a: usize, b: usize) -> bool
    requires { (a < 4096) × (b < 4096) }
    ensures { result ≡ same_closed fixed.now nums.now a b }
{
    nums[a] == nums[b] && among(fixed, a, b) && among(fixed, b, a)
}

#[tactic(auto, using(crate::proofs::TableLaws::first_spot_within), unfolding(crate::specs::Told::Tables::same_same))]
fn same_same(fixed: &[u32; FIXED], nums: &[u32; SPOTS], a: usize, b: usize) -> bool
    requires { (a < 4096) × (b < 4096) }
    ensures { result ≡ same_same fixed.now nums.now a b }
{
    let f = first_spot(fixed, a);
    let g = first_spot(fixed, b);
    nums[f] == nums[g] && nums[a] == nums[b] && same_list(fixed, f, g) && same_list(fixed, a, b)
}

// Whether the constraint of the same kind at spot k is the same.
#[tactic(auto, using(crate::proofs::KindLaws::closed_names, crate::proofs::KindLaws::same_names))]
fn same_name(fixed: &[u32; FIXED], nums: &[u32; SPOTS], own: Constraint, k: usize) -> bool
    requires { k < 4096 }
    ensures { result ≡ same_name fixed.now nums.now (mark_at own) (marks_of own.kind + k) }
{
    match own.kind {
        Kind::Closed => same_closed(fixed, nums, own.spot, k),
        Kind::Same => same_same(fixed, nums, own.spot, k),
    }
}

// Whether spot k has a constraint that is not struck, and the same as `own`.
#[tactic(auto, unfolding(crate::specs::Told::Tables::left_same))]
fn left_same(
    fixed: &[u32; FIXED],
    nums: &[u32; SPOTS],
    marks: &[u32; MARKS],
    own: Constraint,
    k: usize,
) -> bool
    requires { k < 4096 }
    ensures { result ≡ left_same fixed.now nums.now marks.now (mark_at own) (marks_of own.kind + k) }
{
    is_left(fixed, marks, own.kind, k) && same_name(fixed, nums, own, k)
}

// Whether row r has the constraint.
fn row_has(
    fixed: &[u32; FIXED],
    nums: &[u32; SPOTS],
    marks: &[u32; MARKS],
    own: Constraint,
    r: usize,
) -> bool
    requires { r < 64 }
    ensures { result ≡ row_has fixed.now nums.now marks.now (mark_at own) r }
{
    let start = r * MOST_SIDE;
    (start..start + MOST_SIDE).any(|k| left_same(fixed, nums, marks, own, k))
}

// The mark of spot k, of a row that is not struck, after the constraint was struck.
fn strike_mark(
    fixed: &[u32; FIXED],
    nums: &[u32; SPOTS],
    marks: &[u32; MARKS],
    own: Constraint,
    k: usize,
    mark: u32,
) -> u32
    requires { (k < 4096) × (get_or marks.now (k / 64) 0 ≡ 0) }
    ensures { result ≡ struck_same fixed.now nums.now marks.now (mark_at own) mark (marks_of own.kind + k) (get_or marks.now (marks_of own.kind + k) 0) }
{
    if left_same(fixed, nums, marks, own, k) {
        mark
    } else {
        marks[own.kind.marks() + k]
    }
}

// Strikes the constraint from every row.
pub fn strike(
    fixed: &[u32; FIXED],
    nums: &[u32; SPOTS],
    marks: &mut [u32; MARKS],
    own: Constraint,
    mark: u32,
)
    ensures { Changed (struck_same fixed.now nums.now marks.old (mark_at own) mark) marks.old marks.new }
{
    let from = own.kind.marks();
    // By offset: all marks are read while one is written.
    for r in 0..MOST_RULES_LONG {
        if marks[r] != FREE {
            continue;
        }
        for k in r * MOST_SIDE..r * MOST_SIDE + MOST_SIDE {
            marks[from + k] = strike_mark(fixed, nums, marks, own, k, mark);
        }
    }
}

// Takes a node's mark away from the constraints of one kind: only rows that are not struck have it.
// Apart from strike, whose loops are the same: struck_same asks of each spot's constraint, unmarked of the mark alone.
pub fn unstrike(marks: &mut [u32; MARKS], kind: Kind, mark: u32)
    ensures { Changed (only_at (of_free_row marks.old (marks_of kind)) (unmarked mark)) marks.old marks.new }
{
    let from = kind.marks();
    // By offset: the mark of a row decides on those of its spots, in one table.
    for r in 0..MOST_RULES_LONG {
        if marks[r] != FREE {
            continue;
        }
        for k in r * MOST_SIDE..r * MOST_SIDE + MOST_SIDE {
            marks[from + k] = without_mark(marks[from + k], mark);
        }
    }
}

// The mark of row r after every row that has the constraint was struck.
// Three functions strike rows, each by a test on tables of its own: one for all would take the test as a closure, no plainer than the loop.
fn having_mark(
    fixed: &[u32; FIXED],
    nums: &[u32; SPOTS],
    marks: &[u32; MARKS],
    own: Constraint,
    r: usize,
    mark: u32,
) -> u32
    requires { r < 64 }
    ensures { result ≡ struck_rows (row_has fixed.now nums.now marks.now (mark_at own)) mark r (get_or marks.now r 0) }
{
    if marks[r] == FREE && row_has(fixed, nums, marks, own, r) {
        mark
    } else {
        marks[r]
    }
}

// Strikes every row that has the constraint.
pub fn drop_having(
    fixed: &[u32; FIXED],
    nums: &[u32; SPOTS],
    marks: &mut [u32; MARKS],
    own: Constraint,
    mark: u32,
)
    ensures { Changed (struck_rows (row_has fixed.now nums.now marks.old (mark_at own)) mark) marks.old marks.new }
{
    // By offset: all marks are read while one is written.
    for r in 0..MOST_RULES_LONG {
        marks[r] = having_mark(fixed, nums, marks, own, r, mark);
    }
}

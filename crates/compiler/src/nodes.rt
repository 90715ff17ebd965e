// Nodes of the tree, written where they stand, each followed by its subtrees.
ghost use Rattle.std.specs.Prelude.{List, ◌≡◌, ℕ, ◌+◌, ◌*◌};
ghost use Rattle.compiler.specs.Told.Tables.{mark_at, count_heads};
ghost use Rattle.compiler.specs.Told.Stands.{TreeReady, TreeKept, TreeTold};
ghost use Rattle.compiler.specs.Told.NodeTold.{SwitchReady, TestReady, CasesReady, HeadOfCase, CaseTold, CasesTold};

use crate::constraint::Constraint;
use crate::constraints::{drop_having, first_constraint, strike, unstrike};
use crate::heads::{count_heads, drop_others, lowest_open, new_head};
use crate::numbers::number_rows;
use crate::table::{ENTERED, FIXED, FREE, MARKS, SPOTS, first_row, forget, unmark};
use crate::words::{put_front, put_leaf};
use book::limits::MOST_RULES_LONG;
use term::lent::put;
use term::word::count_of;
use tree::node::{FAIL, SWITCH};

// A node's own mark: its address, past the marks that are no node's, which are FREE, ABSENT_ROW and those of the root's place.
pub const OWN: u32 = 17;

// Writes a test and its subtrees.
#[cycle(nodes)]
fn test_node(
    fixed: &[u32; FIXED],
    nums: &mut [u32; SPOTS],
    marks: &mut [u32; MARKS],
    out: &mut [u32],
    limit: usize,
    count: u32,
    at: usize,
    own: Constraint,
) -> Option<usize>
    requires { TestReady fixed.now nums.old marks.old limit count at (mark_at own) }
    ensures { ((book : List ℕ) → TreeTold book fixed.now nums.old marks.old limit count at out.old out.new result)
        × TreeKept nums.old marks.old limit at nums.new marks.new result }
{
    let mark = at as u32 + OWN;
    let slot = put_front(fixed, nums, out, at, own);
    put(out, slot, slot as u32 + 2);
    strike(fixed, nums, marks, own, mark);
    let next = tree_of(fixed, nums, marks, out, limit, count, slot + 2)?;
    unstrike(marks, own.kind, mark);
    put(out, slot + 1, next as u32);
    drop_having(fixed, nums, marks, own, mark);
    let end = tree_of(fixed, nums, marks, out, limit, count, next)?;
    unmark(marks, mark);
    Some(end)
}

// Writes the tree of one case, whose head is w.
#[cycle(nodes)]
fn case_tree(
    fixed: &[u32; FIXED],
    nums: &mut [u32; SPOTS],
    marks: &mut [u32; MARKS],
    out: &mut [u32],
    limit: usize,
    count: u32,
    at: usize,
    mark: u32,
    n: u32,
    w: u32,
) -> Option<usize>
    requires { CasesReady fixed.now nums.old marks.old limit count at mark n × HeadOfCase fixed.now nums.old marks.old n w }
    ensures { ((book : List ℕ) → CaseTold book fixed.now nums.old marks.old limit count at n w out.old out.new result)
        × TreeKept nums.old marks.old limit at nums.new marks.new result }
{
    drop_others(fixed, nums, marks, n, Some(w), mark);
    number_rows(fixed, nums, marks, n, count);
    marks[ENTERED + n as usize] = mark;
    let more = count_of(w);
    let next = tree_of(fixed, nums, marks, out, limit, count + more, at)?;
    forget(nums, marks, count);
    marks[ENTERED + n as usize] = FREE;
    unmark(marks, mark);
    Some(next)
}

// Writes the cases of a Switch at the place n: heads and addresses from `slot` on, their trees from `at` on.
#[cycle(nodes)]
fn case_trees(
    fixed: &[u32; FIXED],
    nums: &mut [u32; SPOTS],
    marks: &mut [u32; MARKS],
    out: &mut [u32],
    limit: usize,
    count: u32,
    slot: usize,
    at: usize,
    mark: u32,
    n: u32,
) -> Option<usize>
    requires { CasesReady fixed.now nums.old marks.old limit count at mark n × (slot + 1 + 2 * count_heads fixed.now nums.old marks.old n ≡ at) }
    ensures { ((book : List ℕ) → CasesTold book fixed.now nums.old marks.old limit count slot at n out.old out.new result)
        × TreeKept nums.old marks.old limit at nums.new marks.new result }
{
    let mut to = slot;
    let mut a = at;
    for r in 0..MOST_RULES_LONG {
        let Some(w) = new_head(fixed, nums, marks, r, n) else {
            continue;
        };
        put(out, to, w);
        put(out, to + 1, a as u32);
        a = case_tree(fixed, nums, marks, out, limit, count, a, mark, n, w)?;
        to += 2;
    }
    put(out, to, a as u32);
    Some(a)
}

// Writes a Switch at the place n and its subtrees.
#[cycle(nodes)]
fn switch_node(
    fixed: &[u32; FIXED],
    nums: &mut [u32; SPOTS],
    marks: &mut [u32; MARKS],
    out: &mut [u32],
    limit: usize,
    count: u32,
    at: usize,
    n: u32,
) -> Option<usize>
    requires { SwitchReady fixed.now nums.old marks.old limit count at n }
    ensures { ((book : List ℕ) → TreeTold book fixed.now nums.old marks.old limit count at out.old out.new result) × TreeKept nums.old marks.old limit at nums.new marks.new result }
{
    let mark = at as u32 + OWN;
    let cases = count_heads(fixed, nums, marks, n);
    put(out, at, SWITCH);
    put(out, at + 1, n);
    put(out, at + 2, cases);
    let first = at + 4 + 2 * cases as usize;
    let next = case_trees(
        fixed,
        nums,
        marks,
        out,
        limit,
        count,
        at + 3,
        first,
        mark,
        n,
    )?;
    drop_others(fixed, nums, marks, n, None, mark);
    let end = tree_of(fixed, nums, marks, out, limit, count, next)?;
    unmark(marks, mark);
    Some(end)
}

// Writes the tree of the rows that are not struck, where `count` places are uncovered; the offset after it. None where it goes past the limit.
#[cycle(nodes)]
pub fn tree_of(
    fixed: &[u32; FIXED],
    nums: &mut [u32; SPOTS],
    marks: &mut [u32; MARKS],
    out: &mut [u32],
    limit: usize,
    count: u32,
    at: usize,
) -> Option<usize>
    requires { TreeReady fixed.now nums.old marks.old limit count at }
    ensures { ((book : List ℕ) → TreeTold book fixed.now nums.old marks.old limit count at out.old out.new result)
        × TreeKept nums.old marks.old limit at nums.new marks.new result }
{
    if limit <= at {
        return None;
    }
    let Some(r) = first_row(marks) else {
        put(out, at, FAIL);
        return Some(at + 1);
    };
    if let Some(n) = lowest_open(fixed, nums, marks, r) {
        return switch_node(fixed, nums, marks, out, limit, count, at, n);
    }
    if let Some(own) = first_constraint(fixed, marks, r) {
        return test_node(fixed, nums, marks, out, limit, count, at, own);
    }
    Some(put_leaf(fixed, nums, marks, out, at, r))
}

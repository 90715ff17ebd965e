// The numbers of places: entering a place numbers the children that the rows have there.
ghost use Rattle.std.specs.Prelude.{◌≡◌, ◌≤◌, ◌<◌};
ghost use Rattle.compiler.specs.Told.Tables.{next_child, spot_numbered, row_numbered, rows_numbered};

use crate::heads::{is_head, spot_at};
use crate::table::{FIXED, FREE, MARKS, SPOTS};
use book::limits::{MOST_RULES_LONG, MOST_SIDE};
use term::part::part_end;
use term::word::count_of;

// Where the tree after the one at `child` begins, in a left side that ends at `to`.
fn next_child(fixed: &[u32; FIXED], child: usize, to: usize) -> usize
    requires { (child < to) × (to ≤ 4096) }
    ensures { result ≡ next_child fixed.now child to }
{
    let words = part_end(&fixed[child..to]);
    if to - child < words {
        to
    } else {
        child + words
    }
}

// Numbers the children of a spot after `first`.
fn number_children(fixed: &[u32; FIXED], nums: &mut [u32; SPOTS], k: usize, first: u32)
    requires { (k < 4096) × (first ≤ 4096) }
    ensures { nums.new ≡ spot_numbered fixed.now k first nums.old }
{
    let to = k / MOST_SIDE * MOST_SIDE + MOST_SIDE;
    let more = count_of(fixed[k]);
    let mut child = k + 1;
    for j in 0..more {
        if to <= child {
            return;
        }
        nums[child] = first + 1 + j;
        child = next_child(fixed, child, to);
    }
}

// Numbers the children that row r has at the place.
#[tactic(auto, using(crate::proofs::TableLaws::spot_found))]
fn number_row(
    fixed: &[u32; FIXED],
    nums: &mut [u32; SPOTS],
    marks: &[u32; MARKS],
    n: u32,
    first: u32,
    r: usize,
)
    requires { (n < 4096) × (first ≤ 4096) × (r < 64) }
    ensures { nums.new ≡ row_numbered fixed.now marks.now n first r nums.old }
{
    if marks[r] != FREE {
        return;
    }
    let Some(k) = spot_at(nums, r, n) else {
        return;
    };
    if is_head(fixed[k]) {
        number_children(fixed, nums, k, first);
    }
}

// Numbers the children that the rows have at the place. Not in line, so that a level of tree_of takes less of the stack.
#[inline(never)]
pub fn number_rows(
    fixed: &[u32; FIXED],
    nums: &mut [u32; SPOTS],
    marks: &[u32; MARKS],
    n: u32,
    first: u32,
)
    requires { (n < 4096) × (first ≤ 4096) }
    ensures { nums.new ≡ rows_numbered fixed.now marks.now n first 0 64 nums.old }
{
    for r in 0..MOST_RULES_LONG {
        number_row(fixed, nums, marks, n, first, r);
    }
}

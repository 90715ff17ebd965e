// The words of nodes that have no subtrees before their addresses.
ghost use Rattle.std.specs.Prelude.{◌≡◌, ◌+◌, ◌≤◌, ◌<◌, length, get_or};
ghost use Rattle.std.proofs.lemmas.List.Edits.{sets};
ghost use Rattle.compiler.specs.Told.Tables.{mark_at, size_at, ids_at, number_at, occurrence_words, variable_spot, leaf_from, aside_at, leaf_words, front_words};

use crate::constraint::{Constraint, Kind};
use crate::constraints::{first_spot, is_variable, list_at};
use crate::table::{ENTERED, FIXED, MARKS, SPOTS, VARS};
use book::limits::MOST_SIDE;
use term::lent::put;
use term::word::{count_of, id_of};
use tree::node::{CLOSED, LEAF, SAME};

// The number of the place of spot k.
fn number_at(nums: &[u32; SPOTS], k: usize) -> u32
    requires { k < 4096 }
    ensures { result ≡ number_at nums.now k }
{
    nums[k].saturating_sub(1)
}

// Writes the list at spot k; the offset after it.
fn put_list(fixed: &[u32; FIXED], out: &mut [u32], at: usize, k: usize) -> usize
    requires { (k < 4096) × (at ≤ 65536) }
    ensures { (out.new ≡ sets out.old at (ids_at fixed.now k)) × (result ≡ at + size_at fixed.now k) }
{
    let list = list_at(fixed, k);
    for (j, w) in list.iter().enumerate() {
        put(out, at + j, id_of(*w));
    }
    at + list.len()
}

// Writes the occurrence at spot k: its place, how long its list is, the list; the offset after it.
fn put_occurrence(
    fixed: &[u32; FIXED],
    nums: &[u32; SPOTS],
    out: &mut [u32],
    at: usize,
    k: usize,
) -> usize
    requires { (k < 4096) × (at ≤ 32768) }
    ensures { (out.new ≡ sets out.old at (occurrence_words fixed.now nums.now k)) × (result ≡ at + 2 + size_at fixed.now k) }
{
    put(out, at, number_at(nums, k));
    put(out, at + 1, count_of(fixed[k]));
    put_list(fixed, out, at + 2, k)
}

// The first spot of variable x in row r.
fn variable_spot(fixed: &[u32; FIXED], r: usize, x: u32) -> usize
    requires { r < 64 }
    ensures { result ≡ variable_spot fixed.now r x }
{
    let start = r * MOST_SIDE;
    (start..start + MOST_SIDE)
        .find(|k| is_variable(fixed, x, *k))
        .unwrap_or(start)
}

// Writes for each variable of row r its first occurrence; the offset after them.
#[tactic(auto, using(crate::proofs::WordLaws::variable_within))]
fn put_variables(
    fixed: &[u32; FIXED],
    nums: &[u32; SPOTS],
    out: &mut [u32],
    at: usize,
    r: usize,
) -> usize
    requires { (at ≤ 16400) × (r < 64) × (get_or fixed.now (8192 + r) 0 ≤ 16) }
    ensures { (out.new ≡ sets out.old at (leaf_from fixed.now nums.now r 0 (get_or fixed.now (8192 + r) 0)))
        × (result ≡ at + length (leaf_from fixed.now nums.now r 0 (get_or fixed.now (8192 + r) 0))) }
{
    let vars = fixed[VARS + r];
    let mut a = at;
    for x in 0..vars {
        let k = variable_spot(fixed, r, x);
        a = put_occurrence(fixed, nums, out, a, k);
    }
    a
}

// How many arguments of the root are set aside for row r.
fn aside_of(fixed: &[u32; FIXED], marks: &[u32; MARKS], r: usize) -> u32
    requires { r < 64 }
    ensures { result ≡ aside_at fixed.now marks.now r }
{
    marks[ENTERED]
        .saturating_sub(1)
        .saturating_sub(count_of(fixed[r * MOST_SIDE]))
}

// Writes the Leaf of row r; the offset after it.
pub fn put_leaf(
    fixed: &[u32; FIXED],
    nums: &[u32; SPOTS],
    marks: &[u32; MARKS],
    out: &mut [u32],
    at: usize,
    r: usize,
) -> usize
    requires { (at ≤ 16384) × (r < 64) × (get_or fixed.now (8192 + r) 0 ≤ 16) }
    ensures { (out.new ≡ sets out.old at (leaf_words fixed.now nums.now marks.now r))
        × (result ≡ at + length (leaf_words fixed.now nums.now marks.now r)) }
{
    put(out, at, LEAF);
    put(out, at + 1, r as u32);
    put(out, at + 2, fixed[VARS + r]);
    put(out, at + 3, aside_of(fixed, marks, r));
    put_variables(fixed, nums, out, at + 4, r)
}

// Writes a test up to its addresses; where they stand.
#[tactic(auto, using(crate::proofs::TableLaws::first_spot_within))]
pub fn put_front(
    fixed: &[u32; FIXED],
    nums: &[u32; SPOTS],
    out: &mut [u32],
    at: usize,
    own: Constraint,
) -> usize
    requires { at ≤ 16384 }
    ensures { (out.new ≡ sets out.old at (front_words fixed.now nums.now (mark_at own))) × (result ≡ at + length (front_words fixed.now nums.now (mark_at own))) }
{
    match own.kind {
        Kind::Closed => {
            put(out, at, CLOSED);
            put_occurrence(fixed, nums, out, at + 1, own.spot)
        }
        Kind::Same => {
            let f = first_spot(fixed, own.spot);
            put(out, at, SAME);
            put(out, at + 1, number_at(nums, f));
            put(out, at + 2, number_at(nums, own.spot));
            put(out, at + 3, count_of(fixed[f]));
            let a = put_list(fixed, out, at + 4, f);
            put_list(fixed, out, a, own.spot)
        }
    }
}

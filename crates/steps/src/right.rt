// A right side written with the bodies of its variables, in one pass. Writing a tree of the right side writes a body where a pattern
// variable stands; writing a body writes a child of that pattern variable, which is further on in the right side, at each parameter.
ghost use Rattle.std.specs.Prelude.{◌≡◌, ◌+◌, ◌≤◌, length};
ghost use Rattle.fit.specs.Told.BuildWalk.{RowBuilt};
ghost use Rattle.steps.specs.Right.{single};
ghost use Rattle.steps.specs.Told.Under.{place};
ghost use Rattle.steps.specs.Told.RightWalk.{RightWritten, next_tree, child_at, RightTold, PatternTold, VariableTold, BodyTold};

use crate::under::{Under, Within};
use book::limits::{MOST_VARS_LONG, SIDE_NESTING};
use fit::build::start_of;
use term::check::{MOST_LEVELS, MOST_WORDS};
use term::lent::put;
use term::part::part_end;
use term::renumber::NO_ID;
use term::word::{KIND, PATTERN, VARIABLE, count_of, id_of, kind_of};

// No variable has an id from here on.
const IDS: u32 = 65536;

// The offset after the tree of a right side at an offset.
fn next_tree(right: &[u32], at: usize) -> usize
    requires { at ≤ length right.now }
    ensures { result ≡ next_tree right.now at }
{
    at + part_end(&right[at..])
}

// The offset of the tree that is j trees further on.
pub fn child_at(right: &[u32], at: usize, j: u32) -> usize
    requires { at ≤ length right.now }
    ensures { result ≡ child_at right.now at j }
{
    let mut child = at;
    for _ in 0..j {
        child = next_tree(right, child);
    }
    child
}

// Writes a variable, where it has an id.
fn write_variable(i: u32, levels: u32, out: &mut [u32], to: usize) -> Option<usize>
    ensures { RowBuilt levels out.old to out.new (single i) result }
{
    if levels == 0 || MOST_WORDS <= to || i == NO_ID || IDS <= i {
        return None;
    }
    put(out, to, VARIABLE * KIND + i);
    Some(to + 1)
}

// Writes what a variable of a body stands for: itself, a child of the pattern variable, or what is outside.
#[cycle(right_side)]
fn body_variable(
    within: Within,
    i: u32,
    right: &[u32],
    bodies: &[u32],
    lengths: &[u32; MOST_VARS_LONG],
    out: &mut [u32],
    to: usize,
) -> Option<usize>
    requires { (within.at ≤ length right.now) × (i ≤ 65535) }
    ensures { VariableTold (place within.under) within.e within.count within.under.levels i right.now within.at bodies.now lengths.now out.old to out.new result }
{
    let under = within.under;
    let e = within.e;
    if i <= e {
        return write_variable(i, under.levels, out, to);
    }
    if within.count < i - e {
        return write_variable(i - within.count + under.depth, under.levels, out, to);
    }
    let child = child_at(right, within.at, i - e - 1);
    let inner = under.deeper(e);
    write_tree(inner, right, child, bodies, lengths, out, to)
}

// Writes one tree of a body, and answers the offsets after it and after what it writes; none where it is over the limits.
#[cycle(right_side)]
fn body_tree(
    within: Within,
    right: &[u32],
    bodies: &[u32],
    from: usize,
    lengths: &[u32; MOST_VARS_LONG],
    out: &mut [u32],
    to: usize,
) -> Option<(usize, usize)>
    requires { within.at ≤ length right.now }
    ensures { BodyTold (place within.under) within.e within.count within.under.levels 1 right.now within.at bodies.now from lengths.now out.old to out.new result }
{
    let w = *bodies.get(from)?;
    let next = from + 1;
    if kind_of(w) == VARIABLE {
        let end = body_variable(within, id_of(w), right, bodies, lengths, out, to)?;
        return Some((next, end));
    }
    if within.under.levels == 0 || MOST_WORDS <= to {
        return None;
    }
    put(out, to, w);
    let inner = within.inside(w);
    let then = to + 1;
    body_row(inner, count_of(w), right, bodies, next, lengths, out, then)
}

// Writes so many trees of a body, and answers the offsets after them and after what they write; none where they are over the limits.
#[cycle(right_side)]
fn body_row(
    within: Within,
    trees: u32,
    right: &[u32],
    bodies: &[u32],
    from: usize,
    lengths: &[u32; MOST_VARS_LONG],
    out: &mut [u32],
    to: usize,
) -> Option<(usize, usize)>
    requires { within.at ≤ length right.now }
    ensures { BodyTold (place within.under) within.e within.count within.under.levels trees right.now within.at bodies.now from lengths.now out.old to out.new result }
{
    let mut tree = from;
    let mut end = to;
    for _ in 0..trees {
        (tree, end) = body_tree(within, right, bodies, tree, lengths, out, end)?;
    }
    Some((tree, end))
}

// Writes one tree of a right side.
#[cycle(right_side)]
fn write_tree(
    under: Under,
    right: &[u32],
    at: usize,
    bodies: &[u32],
    lengths: &[u32; MOST_VARS_LONG],
    out: &mut [u32],
    to: usize,
) -> Option<usize>
    ensures { RightTold (place under) under.levels 1 right.now at bodies.now lengths.now out.old to out.new result }
{
    let w = *right.get(at)?;
    if SIDE_NESTING <= under.own {
        return None;
    }
    let next = at + 1;
    let kind = kind_of(w);
    if kind == VARIABLE {
        return write_variable(under.own_id(id_of(w)), under.levels, out, to);
    }
    if kind == PATTERN {
        return write_pattern(under, w, right, next, bodies, lengths, out, to);
    }
    if under.levels == 0 || MOST_WORDS <= to {
        return None;
    }
    put(out, to, w);
    let inner = under.inside(w);
    let then = to + 1;
    write_row(inner, count_of(w), right, next, bodies, lengths, out, then)
}

// Writes so many trees of a right side.
#[cycle(right_side)]
fn write_row(
    under: Under,
    count: u32,
    right: &[u32],
    at: usize,
    bodies: &[u32],
    lengths: &[u32; MOST_VARS_LONG],
    out: &mut [u32],
    to: usize,
) -> Option<usize>
    requires { at ≤ length right.now }
    ensures { RightTold (place under) under.levels count right.now at bodies.now lengths.now out.old to out.new result }
{
    let mut tree = at;
    let mut end = to;
    for _ in 0..count {
        end = write_tree(under, right, tree, bodies, lengths, out, end)?;
        tree = next_tree(right, tree);
    }
    Some(end)
}

// Writes the body of a pattern variable, whose children stand at `at`.
#[cycle(right_side)]
fn write_pattern(
    under: Under,
    w: u32,
    right: &[u32],
    at: usize,
    bodies: &[u32],
    lengths: &[u32; MOST_VARS_LONG],
    out: &mut [u32],
    to: usize,
) -> Option<usize>
    requires { at ≤ length right.now }
    ensures { PatternTold (place under) under.levels w right.now at bodies.now lengths.now out.old to out.new result }
{
    let x = id_of(w) as usize;
    if MOST_VARS_LONG <= x {
        return None;
    }
    let from = start_of(lengths, x);
    let within = Within {
        under,
        e: 0,
        count: count_of(w),
        at,
    };
    body_tree(within, right, bodies, from, lengths, out, to).map(|(_, end)| end)
}

// Writes a right side with the bodies of its variables, one list in variable order with sixteen lengths beside it.
pub fn write_right(
    right: &[u32],
    bodies: &[u32],
    lengths: &[u32; MOST_VARS_LONG],
    out: &mut [u32],
) -> Option<usize>
    ensures { RightWritten right.now bodies.now lengths.now out.old out.new result }
{
    let root = Under::root(MOST_LEVELS);
    write_tree(root, right, 0, bodies, lengths, out, 0)
}

// What is asked of one rule: its sides are trees of their shapes, and its variables agree.
ghost use Rattle.std.specs.Prelude.{◌≡◌, ◌&&◌, eqb, ltb, length, get_or, is_ok};
ghost use Rattle.term.specs.Word.{kind_of};
ghost use Rattle.term.specs.Row.{read};
ghost use Rattle.term.specs.Check.{check};
ghost use Rattle.book.specs.Rule.{side_limits, shaped, good_left, good_right, good_rule};
ghost use Rattle.book.specs.Told.Shape.{shape_of};

use crate::limits::{MOST_SIDE, MOST_VARS, SIDE_LEVELS, SIDE_NESTING};
use crate::shape::{Side, side_row};
use crate::variables::{all_occur, no_other, one_count};
use term::check::check_tree;
use term::word::{SIDE_RANK, SYMBOL, kind_of};

// Whether the words are one tree within the limits, of the shape of the side.
fn good_side(side: Side, words: &[u32]) -> bool
    ensures { result ≡ is_ok (check side_limits words.now) && shaped (shape_of side 0) (read 1 words.now) }
{
    check_tree(words, SIDE_RANK, MOST_SIDE, SIDE_NESTING).is_ok()
        && side_row(side, 0, SIDE_LEVELS, 1, words, 0).is_some()
}

fn starts_with_symbol(words: &[u32]) -> bool
    ensures { result ≡ ltb 0 (length words.now) && eqb (kind_of (get_or words.now 0 0)) 0 }
{
    !words.is_empty() && kind_of(words[0]) == SYMBOL
}

#[tactic(auto, using(crate::proofs::Sides::left_parts))]
fn good_left(vars: u32, left: &[u32]) -> bool
    ensures { result ≡ good_left vars left.now }
{
    good_side(Side::Left, left)
        && starts_with_symbol(left)
        && no_other(vars, left)
        && all_occur(vars, left)
        && one_count(left, left)
}

#[tactic(auto, using(crate::proofs::Sides::right_parts))]
fn good_right(left: &[u32], right: &[u32]) -> bool
    ensures { result ≡ good_right left.now right.now }
{
    good_side(Side::Right, right) && one_count(left, right)
}

#[tactic(auto, unfolding(crate::specs::Rule::good_rule))]
pub fn good_rule(vars: u32, left: &[u32], right: &[u32]) -> bool
    ensures { result ≡ good_rule vars left.now right.now }
{
    vars <= MOST_VARS && good_left(vars, left) && good_right(left, right)
}

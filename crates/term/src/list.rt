// The list of a pattern variable: distinct ids within 1..d.
ghost use Rattle.std.specs.Prelude.{◌≡◌};
ghost use Rattle.term.specs.Renumber.{position, good_list};

use crate::word::PATTERN_COUNT;

// A list has at most so many ids.
pub const MOST_IDS: usize = PATTERN_COUNT as usize;

// Which j has list[j - 1] == y, counted from 1; 0 where none has, as `position` of specs/Renumber.antt says it.
pub fn position_of(y: u32, list: &[u32]) -> usize
    ensures { result ≡ position y list.now }
{
    list.iter().position(|id| *id == y).map_or(0, |j| j + 1)
}

// Whether the ids are at most 4, distinct, and from 1 to d.
#[tactic(auto, unfolding(crate::specs::Renumber::good_list))]
pub fn good_list(d: u32, list: &[u32]) -> bool
    ensures { result ≡ good_list d list.now }
{
    if MOST_IDS < list.len() {
        return false;
    }
    for (j, y) in list.iter().enumerate() {
        if *y < 1 || d < *y || position_of(*y, &list[j + 1..]) != 0 {
            return false;
        }
    }
    true
}

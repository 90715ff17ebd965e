// A book in memory: its check, and where a rule's sides lie in it.
ghost use Rattle.std.specs.Prelude.{◌≡◌, ◌≤◌, ◌-◌, length, take, drop};
ghost use Rattle.book.specs.Book.{rule_of, check_book, sound};
ghost use Rattle.book.specs.Told.Found.{placed, sides_at};

use crate::limits::MOST_RULES_LONG;
use crate::rule::good_rule;

// vars, left length and right length stand before a rule's sides.
const HEADER: usize = 3;

// A rule's variables, and where in a book its left side begins, its right side begins and it ends.
#[derive(Clone, Copy)]
pub struct Sides {
    pub vars: u32,
    pub left: usize,
    pub right: usize,
    pub end: usize,
}

impl Sides {
    // The words of the left side, in the book that the rule stands in.
    pub fn left<'a>(&self, words: &'a [u32]) -> &'a [u32]
        requires { (self.now.left ≤ self.now.right) × (self.now.right ≤ length words.now) }
        ensures { result.now ≡ take (self.now.right - self.now.left) (drop self.now.left words.now) }
    {
        &words[self.left..self.right]
    }

    // The words of the right side, in the book that the rule stands in.
    pub fn right<'a>(&self, words: &'a [u32]) -> &'a [u32]
        requires { (self.now.right ≤ self.now.end) × (self.now.end ≤ length words.now) }
        ensures { result.now ≡ take (self.now.end - self.now.right) (drop self.now.right words.now) }
    {
        &words[self.right..self.end]
    }
}

// The rule that begins at an offset, where it does not run past the words.
fn sides_from(words: &[u32], at: usize) -> Option<Sides>
    ensures { result ≡ placed at (rule_of (drop at words.now)) }
{
    if words.len() <= at {
        return None;
    }
    let room = words.len() - at;
    if room < HEADER {
        return None;
    }
    let left_size = words[at + 1] as usize;
    let right_size = words[at + 2] as usize;
    if room - HEADER < left_size + right_size {
        return None;
    }
    let left = at + HEADER;
    let right = left + left_size;
    Some(Sides {
        vars: words[at],
        left,
        right,
        end: right + right_size,
    })
}

// Whether the words begin with a rule that keeps the book rules.
pub fn sound_rule(words: &[u32]) -> bool
    ensures { result ≡ sound words.now }
{
    let Some(sides) = sides_from(words, 0) else {
        return false;
    };
    good_rule(sides.vars, sides.left(words), sides.right(words))
}

// Ok where the words are a book, else the first bad rule.
pub fn check_book(words: &[u32]) -> Result<(), usize>
    ensures { result ≡ check_book words.now }
{
    if words.is_empty() {
        return Err(0);
    }
    let rules = words[0] as usize;
    if MOST_RULES_LONG < rules {
        return Err(MOST_RULES_LONG);
    }
    let mut at: usize = 1;
    for number in 0..rules {
        let Some(sides) = sides_from(words, at) else {
            return Err(number);
        };
        if !good_rule(sides.vars, sides.left(words), sides.right(words)) {
            return Err(number);
        }
        at = sides.end;
    }
    if at < words.len() {
        return Err(rules);
    }
    Ok(())
}

// Where the sides of the rule of this number lie.
pub fn find_rule(words: &[u32], number: u32) -> Option<Sides>
    ensures { result ≡ sides_at words.now number }
{
    if words.is_empty() || words[0] <= number {
        return None;
    }
    let mut at: usize = 1;
    for _ in 0..number {
        at = sides_from(words, at)?.end;
    }
    sides_from(words, at)
}

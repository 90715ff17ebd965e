// The pattern variables of a rule's sides: which occur, and with which count.
ghost use Rattle.std.specs.Prelude.{◌≡◌, true, ◌&&◌, eqb, ltb, suc};
ghost use Rattle.term.specs.Word.{pick, kind_of, count_of, ident_of};
ghost use Rattle.book.specs.Rule.{counted, one_count, all_occur, no_other};

use term::word::{PATTERN, count_of, id_of, kind_of};

// One more than a count is never this: it says that a variable does not occur, as `counted` of specs/Rule.antt does.
const NO_COUNT: u32 = 0;

fn is_variable(i: u32, w: u32) -> bool
    ensures { result ≡ eqb (kind_of w) 3 && eqb (ident_of w) i }
{
    kind_of(w) == PATTERN && id_of(w) == i
}

// One more than the count of a variable's first occurrence.
pub fn counted_in(i: u32, words: &[u32]) -> u32
    ensures { result ≡ counted i words.now }
{
    words
        .iter()
        .find(|w| is_variable(i, **w))
        .map_or(NO_COUNT, |w| count_of(*w) + 1)
}

// Whether a word, where it is a variable, has the count that its first occurrence on the left has.
fn has_count(left: &[u32], w: u32) -> bool
    ensures { result ≡ pick (eqb (kind_of w) 3) (eqb (counted (ident_of w) left.now) (suc (count_of w))) true }
{
    kind_of(w) != PATTERN || counted_in(id_of(w), left) == count_of(w) + 1
}

// Whether each variable has the count that its first occurrence on the left has; one that is not there has none.
pub fn one_count(left: &[u32], words: &[u32]) -> bool
    ensures { result ≡ one_count left.now words.now }
{
    words.iter().all(|w| has_count(left, *w))
}

// Whether each variable below `vars` occurs.
pub fn all_occur(vars: u32, left: &[u32]) -> bool
    ensures { result ≡ all_occur vars left.now }
{
    // From the last down, as the definition goes: it ends at the first that does not occur.
    for x in (0..vars).rev() {
        if counted_in(x, left) == NO_COUNT {
            return false;
        }
    }
    true
}

// Whether a word, where it is a variable, is one below `vars`.
fn is_below(vars: u32, w: u32) -> bool
    ensures { result ≡ pick (eqb (kind_of w) 3) (ltb (ident_of w) vars) true }
{
    kind_of(w) != PATTERN || id_of(w) < vars
}

// Whether no variable from `vars` on occurs.
pub fn no_other(vars: u32, words: &[u32]) -> bool
    ensures { result ≡ no_other vars words.now }
{
    words.iter().all(|w| is_below(vars, *w))
}

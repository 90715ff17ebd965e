// The compiler's tables. A spot is a word of a left side: the spots of rule r are r * MOST_SIDE and the next. A mark that is not FREE says who set it.
// The three tables travel together and stay three parameters, since the borrow of each says whether it is read or written.
ghost use Rattle.std.specs.Prelude.{◌≡◌, eqb, ltb, ◌<◌};
ghost use Rattle.term.specs.Word.{pick};
ghost use Rattle.compiler.specs.Told.Tables.{Changed, unless, only_at, is_row, of_row, of_free_row, unmarked, forgotten, first_row};

use book::limits::{MOST_RULES_LONG, MOST_SIDE};
use term::word::{KIND, VARIABLE};

// Rows, spots and places are plain numbers with a bound in each contract: a struct of one field would be made at each turn of a loop and
// unwrapped at each read.

// The numbers table has one word for each spot, 0 where its place is not uncovered: spot_at and number_at of specs/Told/Tables.antt read it so.
pub const SPOTS: usize = 4096;

// The fixed table: the word of each spot, the abstractions passed there, and for each rule how many variables it has.
// One table, as the definitions of specs/Told/Tables.antt read it.
pub const DEPTHS: usize = 4096;

pub const VARS: usize = 8192;

pub const FIXED: usize = 8256;

// The marks: the rows that are struck, the places that are entered, the spots whose closedness is struck, and those whose equality is. The mark of the
// root's place is one more than the number of its arguments. They are numbers in one fixed table of words, so that no mark needs memory of its own.
pub const ENTERED: usize = 64;

pub const CLOSED_MARKS: usize = 4160;

pub const SAME_MARKS: usize = 8256;

pub const MARKS: usize = 12352;

pub const FREE: u32 = 0;

// The mark of a row that no rule of the book is.
pub const ABSENT_ROW: u32 = 1;

// The variable 0, which the table does not have: it says that there is no head, as word_or of specs/Told/Loaded.antt does.
pub const NO_HEAD: u32 = VARIABLE * KIND;

pub fn without_mark(x: u32, mark: u32) -> u32
    ensures { result ≡ pick (eqb x mark) 0 x }
{
    if x == mark { FREE } else { x }
}

fn up_to(x: u32, count: u32) -> u32
    ensures { result ≡ pick (ltb count x) 0 x }
{
    if count < x { FREE } else { x }
}

// Takes a node's mark away from the rows.
pub fn unmark(marks: &mut [u32; MARKS], mark: u32)
    ensures { Changed (only_at is_row (unmarked mark)) marks.old marks.new }
{
    let rows = &mut marks[..MOST_RULES_LONG];
    for row in rows.iter_mut() {
        *row = without_mark(*row, mark);
    }
}

// Takes the numbers over `count` away from row r.
fn forget_row(nums: &mut [u32; SPOTS], r: usize, count: u32)
    requires { r < 64 }
    ensures { Changed (only_at (of_row r) (forgotten count)) nums.old nums.new }
{
    for k in r * MOST_SIDE..(r + 1) * MOST_SIDE {
        nums[k] = up_to(nums[k], count);
    }
}

// Takes the numbers over `count` away from the rows that are not struck: the places that have them are no longer uncovered.
pub fn forget(nums: &mut [u32; SPOTS], marks: &[u32; MARKS], count: u32)
    ensures { Changed (only_at (of_free_row marks.now 0) (forgotten count)) nums.old nums.new }
{
    // By number: a row is asked for in one table and changed in another.
    for r in 0..MOST_RULES_LONG {
        if marks[r] == FREE {
            forget_row(nums, r, count);
        }
    }
}

// The first row that is not struck.
pub fn first_row(marks: &[u32; MARKS]) -> Option<usize>
    ensures { result ≡ unless 64 (first_row marks.now) }
{
    (0..MOST_RULES_LONG).find(|r| marks[*r] == FREE)
}

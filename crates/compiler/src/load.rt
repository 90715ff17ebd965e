// The tables of a book at the root: the words of each left side at its spots with the abstractions passed there, and a mark for each row that no rule is.
ghost use Rattle.std.specs.Prelude.{◌≡◌, ℕ, ◌<◌, length, get_or, Ok};
ghost use Rattle.book.specs.Book.{check_book, rule_at};
ghost use Rattle.tree.specs.Path.{start};
ghost use Rattle.tree.specs.Compile.{book_rows};
ghost use Rattle.compiler.specs.Told.Tables.{Changed};
ghost use Rattle.compiler.specs.Told.Stands.{rows_left, Stands};
ghost use Rattle.compiler.specs.Told.Loaded.{reaches_to, depth_of, word_or, depth_or, RowLoaded, RuleLoaded, RulesAt, root_number, root_numbered, row_mark, absent_marked};

use crate::table::{ABSENT_ROW, DEPTHS, FIXED, FREE, MARKS, NO_HEAD, SPOTS, VARS};
use book::book::find_rule;
use book::limits::{MOST_RULES_LONG, MOST_SIDE};
use term::part::part_end;
use term::word::{ABSTRACTION, kind_of};

// The numbers table has this at a spot of the root, and 0 where the place is not uncovered.
const ROOT: u32 = 1;

// Whether the word at offset a is an abstraction that has offset o below it.
fn reaches(left: &[u32], a: usize, o: usize) -> bool
    requires { (a < o) × (o < length left.now) }
    ensures { result ≡ reaches_to left.now o a }
{
    kind_of(left[a]) == ABSTRACTION && o - a < part_end(&left[a..])
}

// The abstractions passed at offset o.
fn depth_of(left: &[u32], o: usize) -> u32
    requires { (o < 64) × (o < length left.now) }
    ensures { result ≡ depth_of left.now o }
{
    (0..o).filter(|a| reaches(left, *a, o)).count() as u32
}

// The word at offset o, NO_HEAD past the end.
fn word_or(left: &[u32], o: usize) -> u32
    ensures { result ≡ word_or left.now o }
{
    if o < left.len() { left[o] } else { NO_HEAD }
}

fn depth_or(left: &[u32], o: usize) -> u32
    requires { o < 64 }
    ensures { result ≡ depth_or left.now o }
{
    if o < left.len() { depth_of(left, o) } else { 0 }
}

// A left side at the spots of row r: its words with no heads after them, and the abstractions passed at each.
fn load_row(left: &[u32], fixed: &mut [u32; FIXED], r: usize, vars: u32)
    requires { r < 64 }
    ensures { RowLoaded left.now vars r fixed.old fixed.new }
{
    // By offset: a spot has a word in two parts of the table.
    for o in 0..MOST_SIDE {
        let k = r * MOST_SIDE + o;
        fixed[k] = word_or(left, o);
        fixed[DEPTHS + k] = depth_or(left, o);
    }
    fixed[VARS + r] = vars;
}

// The left side of rule r at its spots, where the book has this rule.
fn load_rule(book: &[u32], fixed: &mut [u32; FIXED], r: usize)
    requires { r < 64 }
    ensures { RuleLoaded book.now r fixed.old fixed.new }
{
    let Some(sides) = find_rule(book, r as u32) else {
        return;
    };
    let left = sides.left;
    let right = sides.right;
    load_row(&book[left..right], fixed, r, sides.vars);
}

fn load_rules(book: &[u32], fixed: &mut [u32; FIXED])
    ensures { RulesAt book.now fixed.new 64 }
{
    for r in 0..MOST_RULES_LONG {
        load_rule(book, fixed, r);
    }
}

fn root_number(k: usize) -> u32
    ensures { result ≡ root_number k }
{
    if k % MOST_SIDE == 0 { ROOT } else { 0 }
}

// Only the root is uncovered, in every row.
fn number_roots(nums: &mut [u32; SPOTS])
    ensures { Changed root_numbered nums.old nums.new }
{
    for (k, n) in nums.iter_mut().enumerate() {
        *n = root_number(k);
    }
}

fn row_mark(book: &[u32], r: usize) -> u32
    requires { r < 64 }
    ensures { result ≡ row_mark (rule_at book.now r) }
{
    match find_rule(book, r as u32) {
        Some(_) => FREE,
        None => ABSENT_ROW,
    }
}

// Strikes the rows that no rule is.
fn mark_absent(book: &[u32], marks: &mut [u32; MARKS])
    ensures { Changed (absent_marked book.now) marks.old marks.new }
{
    let rows = &mut marks[..MOST_RULES_LONG];
    for (r, row) in rows.iter_mut().enumerate() {
        *row = row_mark(book, r);
    }
}

// The tables of an accepted book at the root, where the marks were cleared.
pub fn load(
    book: &[u32],
    fixed: &mut [u32; FIXED],
    nums: &mut [u32; SPOTS],
    marks: &mut [u32; MARKS],
)
    requires { (check_book book.now ≡ Ok tt) × ((k : ℕ) → get_or marks.old k 0 ≡ 0) }
    ensures { Stands book.now fixed.new nums.new marks.new 1 start
        × (rows_left book.now marks.new 0 64 ≡ book_rows book.now 0 (get_or book.now 0 0))
        × ((k : ℕ) → get_or marks.new k 0 < 2) }
{
    load_rules(book, fixed);
    number_roots(nums);
    mark_absent(book, marks);
}

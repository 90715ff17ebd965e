// Simplifying: steps in a work area, until no offset has a rule or the budget is used.
ghost use Rattle.std.specs.Prelude.{◌≡◌, ◌*◌, ◌≤◌, ◌<◌, length, take};
ghost use Rattle.term.specs.Answer.{answered};
ghost use Rattle.term.specs.Check.{IsTerm};
ghost use Rattle.fit.specs.Match.{tree_of};
ghost use Rattle.steps.specs.Told.Area.{spliced_words};
ghost use Rattle.steps.specs.Step.{lowest_offset, search_visits, step};
ghost use Rattle.steps.specs.Simplify.{simplify_by, simplify_came, simplify_gives};
ghost use Rattle.steps.specs.Told.Operations.{GoodBook, Cleared, LowestTold, ReplaceTold, MoveTold, RanTold, UsedTold, looked_at};

use crate::area::{copy, give, splice};
use crate::rules::{BODIES, Walking, ask, rewrite_at};
use book::limits::MOST_VARS_LONG;
use term::answer::Answer;
use term::check::{MOST_WORDS, check_term};
use term::lent::clear;

// The answer, the steps made, and how many nodes were visited. Not a Result: the contract of simplify names all three, at each answer.
#[derive(Clone, Copy)]
pub struct Simplified {
    pub answer: Answer,
    pub steps: u16,
    pub visits: u64,
}

// How repeating steps ended: the answer, the steps made, the nodes visited, and how many words of the work area are the term so far, 0 after a
// refusal. Not an Option: RanTold names the four at each answer, and simplify gives the first `size` words at each.
#[derive(Clone, Copy)]
pub struct Ran {
    pub answer: Answer,
    pub steps: u16,
    pub visits: u64,
    pub size: usize,
}

// The visits where nothing was walked.
const NO_VISITS: u64 = 0;

// Seeks the lowest offset at which the walk finds a rule, and writes the new part: the offset where the search ended and what came of the part there;
// none where no offset has a rule. The bodies and lengths are cleared before and after.
// Book and tree are read, bodies and lengths written: they stay parameters, since the borrow of each says which.
fn seek(
    book: &[u32],
    tree: &[u32],
    term: &[u32],
    bodies: &mut [u32],
    lengths: &mut [u32; MOST_VARS_LONG],
    new: &mut [u32; MOST_WORDS],
) -> Walking<Option<(usize, Result<usize, Answer>)>>
    requires { GoodBook book.now × IsTerm term.now × Cleared bodies.old lengths.old }
    ensures { LowestTold book.now (tree_of term.now) (lowest_offset book.now tree.now (tree_of term.now)) new.new result.came
        × Cleared bodies.new lengths.new × (result.visits ≡ search_visits book.now tree.now (tree_of term.now)) }
{
    let mut visits = NO_VISITS;
    for at in 0..term.len() {
        let part = rewrite_at(book, tree, &term[at..], bodies, lengths, new);
        visits += part.visits;
        if let Some(wrote) = part.came {
            return Walking {
                came: Some((at, wrote)),
                visits,
            };
        }
    }
    Walking { came: None, visits }
}

// Replaces a part of the area's term and checks the whole. How many words it has, or that it is over the limits.
fn replace(
    area: &mut [u32; MOST_WORDS],
    size: usize,
    at: usize,
    new: &mut [u32; MOST_WORDS],
    n: usize,
) -> Result<usize, Answer>
    requires { (size ≤ 4096) × (at < size) × (n ≤ 4096) }
    ensures { ReplaceTold (spliced_words (take size area.old) at (take n new.old)) area.new result }
{
    let whole = splice(area, size, at, new, n).ok_or(Answer::Over)?;
    check_term(&area[..whole]).map_err(|_| Answer::Over)?;
    Ok(whole)
}

// One step in the work area, whose term has `size` words: how many it has now, none where no step is made, or why it is refused.
fn one_step(
    book: &[u32],
    tree: &[u32],
    area: &mut [u32; MOST_WORDS],
    size: usize,
    bodies: &mut [u32],
    lengths: &mut [u32; MOST_VARS_LONG],
) -> Walking<Result<Option<usize>, Answer>>
    requires { GoodBook book.now × (size ≤ 4096) × IsTerm (take size area.old) × Cleared bodies.old lengths.old }
    ensures { MoveTold (step book.now tree.now (tree_of (take size area.old))) area.old area.new result.came
        × Cleared bodies.new lengths.new × (result.visits ≡ search_visits book.now tree.now (tree_of (take size area.old))) }
{
    let mut new = [0u32; MOST_WORDS];
    let sought = seek(book, tree, &area[..size], bodies, lengths, &mut new);
    let visits = sought.visits;
    match sought.came {
        None => Walking {
            came: Ok(None),
            visits,
        },
        Some((at, Ok(n))) => Walking {
            came: replace(area, size, at, &mut new, n).map(Some),
            visits,
        },
        Some((_, Err(answer))) => Walking {
            came: Err(answer),
            visits,
        },
    }
}

// The budget is used: what the last search found says the answer, and whether the words are left.
fn used(last: Option<(usize, Result<usize, Answer>)>, steps: u16, visits: u64, size: usize) -> Ran
    ensures { UsedTold last steps visits size result }
{
    let (answer, size) = match last {
        None => (Answer::Done, size),
        Some((_, Err(Answer::Damaged(address)))) => (Answer::Damaged(address), 0),
        Some(_) => (Answer::BudgetUsed, size),
    };
    Ran {
        answer,
        steps,
        visits,
        size,
    }
}

// The budget is used after so many steps and visits: a rule still fits the term, or none.
fn last_look(
    book: &[u32],
    tree: &[u32],
    term: &[u32],
    steps: u16,
    visits: u64,
    bodies: &mut [u32],
    lengths: &mut [u32; MOST_VARS_LONG],
) -> Ran
    requires { GoodBook book.now × IsTerm term.now × (visits ≤ 67112960 * steps) × Cleared bodies.old lengths.old }
    ensures { RanTold steps visits (looked_at book.now tree.now (tree_of term.now)) result term.now }
{
    let mut new = [0u32; MOST_WORDS];
    let sought = seek(book, tree, term, bodies, lengths, &mut new);
    used(sought.came, steps, visits + sought.visits, term.len())
}

// Repeats steps on a term in the work area. By a `while`, since in document 01 the budget falls each step.
fn run(
    book: &[u32],
    tree: &[u32],
    term: &[u32],
    budget: u16,
    area: &mut [u32; MOST_WORDS],
    bodies: &mut [u32],
    lengths: &mut [u32; MOST_VARS_LONG],
) -> Ran
    requires { GoodBook book.now × IsTerm term.now × Cleared bodies.old lengths.old }
    ensures { RanTold 0 0 (simplify_by book.now tree.now budget (tree_of term.now)) result area.new }
{
    copy(term, area, 0);
    let mut size = term.len();
    let mut left = budget;
    let mut visits = NO_VISITS;
    while left != 0 {
        let stepped = one_step(book, tree, area, size, bodies, lengths);
        visits += stepped.visits;
        let (answer, size) = match stepped.came {
            Ok(Some(n)) => {
                size = n;
                left = left - 1;
                continue;
            }
            Ok(None) => (Answer::Done, size),
            Err(answer) => (answer, 0),
        };
        return Ran {
            answer,
            steps: budget - left,
            visits,
            size,
        };
    }
    last_look(book, tree, &area[..size], budget, visits, bodies, lengths)
}

// Simplifies a term by the rules that the tree finds, with at most so many steps, and counts the nodes visited.
pub fn simplify(
    book: &[u32],
    tree: &[u32],
    term: &[u32],
    budget: u16,
    out: &mut [u32],
) -> Simplified
    ensures { simplify_came (answered result.answer) result.steps result.visits out.new ≡ simplify_gives book.now tree.now term.now budget (length out.old) }
{
    clear(out);
    if let Err(answer) = ask(book, term) {
        return Simplified {
            answer,
            steps: 0,
            visits: NO_VISITS,
        };
    }
    let mut area = [0u32; MOST_WORDS];
    let mut bodies = [0u32; BODIES];
    let mut lengths = [0u32; MOST_VARS_LONG];
    let ran = run(
        book,
        tree,
        term,
        budget,
        &mut area,
        &mut bodies,
        &mut lengths,
    );
    Simplified {
        answer: give(ran.answer, &area[..ran.size], out),
        steps: ran.steps,
        visits: ran.visits,
    }
}

// A left side built from bodies: document 01's "Fit", read from the bodies to the term.
ghost use Rattle.std.specs.Prelude.{◌≡◌, ◌+◌, ◌-◌, ◌≤◌, ◌<◌, length};
ghost use Rattle.term.specs.Answer.{answered};
ghost use Rattle.fit.specs.Build.{start_of, good_lengths, check_bodies, build_left_came, build_left_gives};
ghost use Rattle.fit.specs.Told.BuildWalk.{BodyAt, BodyBuilt, HoleBuilt, LeftBuilt, RuleBuilt};

use book::accept::accept_book;
use book::book::find_rule;
use book::ids::ids_of;
use book::limits::MOST_VARS_LONG;
use term::answer::Answer;
use term::check::{MOST_LEVELS, MOST_WORDS, check_term};
use term::lent::{clear, put};
use term::part::write_below;
use term::renumber::inside_word;
use term::word::{PATTERN, count_of, id_of, kind_of};

// The place of bad lengths: no variable has this number. A place, not a None: `build_left_gives` of specs/Build.antt answers it.
const AT_LENGTHS: usize = 16;

// How many words stand before the body of a variable.
pub fn start_of(lengths: &[u32], x: usize) -> usize
    requires { (x ≤ 16) × (length lengths.now ≡ 16) }
    ensures { result ≡ start_of lengths.now x }
{
    lengths[..x].iter().map(|n| *n as usize).sum()
}

// One list of words in variable order, and how many of them each variable has: so C lends them.
#[derive(Clone, Copy)]
struct Bodies<'a> {
    words: &'a [u32],
    lengths: &'a [u32; 16],
}

impl<'a> Bodies<'a> {
    // The words of the body of x, where they do not run past the list.
    fn body(&self, x: usize) -> Option<&'a [u32]>
        requires { x < 16 }
        ensures { BodyAt self.now.words.now self.now.lengths.now x result }
    {
        let lengths = self.lengths;
        self.words
            .get(start_of(lengths, x)..start_of(lengths, x + 1))
    }

    // Whether the lengths sum to the words, and none stands at an unused variable.
    fn good_lengths(&self, vars: u32) -> bool
        ensures { result ≡ good_lengths vars self.now.words.now self.now.lengths.now }
    {
        let lengths = self.lengths;
        start_of(lengths, MOST_VARS_LONG) == self.words.len()
            && lengths.iter().skip(vars as usize).all(|n| *n == 0)
    }

    // Ok where each variable's body is a term, else the first variable whose body is none. The lengths are to sum to the words.
    fn check_bodies(&self, vars: u32) -> Result<(), usize>
        requires { vars ≤ 16 }
        ensures { start_of self.now.lengths.now 16 ≡ length self.now.words.now → result ≡ check_bodies self.now.words.now self.now.lengths.now 0 vars }
    {
        // A loop: find gives an Option, which would be turned into a Result again.
        for x in 0..vars as usize {
            if !self.body(x).is_some_and(|body| check_term(body).is_ok()) {
                return Err(x);
            }
        }
        Ok(())
    }
}

// Writes the part of a term that a body stands for, from an offset on, and says where it ends. None where it is over the limits there.
fn write_part(
    d: u32,
    list: &[u32],
    levels: u32,
    body: &[u32],
    out: &mut [u32],
    to: usize,
) -> Option<usize>
    requires { (length list.now ≤ 4) × (levels ≤ 64) }
    ensures { BodyBuilt d list.now levels body.now out.old to out.new result }
{
    if MOST_WORDS < to {
        return None;
    }
    let from = to.min(out.len());
    let n = write_below(body, d, list, levels, &mut out[from..])?;
    if MOST_WORDS - to < n {
        return None;
    }
    Some(to + n)
}

// Writes what a pattern variable's word and the list after it stand for. A good left side with good bodies passes its tests, which
// keep the reads within the slices.
fn build_variable(
    w: u32,
    after: &[u32],
    d: u32,
    levels: u32,
    bodies: &Bodies,
    out: &mut [u32],
    to: usize,
) -> Option<usize>
    requires { levels ≤ 64 }
    ensures { HoleBuilt w after.now d levels bodies.now.words.now bodies.now.lengths.now out.old to out.new result }
{
    let k = count_of(w) as usize;
    let x = id_of(w) as usize;
    let ids = ids_of(after, k)?;
    if MOST_VARS_LONG <= x {
        return None;
    }
    let body = bodies.body(x)?;
    write_part(d, &ids[..k], levels, body, out, to)
}

// Builds one tree of a left side, at `at` under d abstractions: the offsets after it and after what it builds, or None where it is over the limits.
#[cycle(building)]
fn build_tree(
    d: u32,
    levels: u32,
    left: &[u32],
    at: usize,
    bodies: &Bodies,
    out: &mut [u32],
    to: usize,
) -> Option<(usize, usize)>
    requires { d + levels ≤ 64 }
    ensures { LeftBuilt d levels 1 left.now at bodies.now.words.now bodies.now.lengths.now out.old to out.new result }
{
    if levels == 0 {
        return None;
    }
    let w = *left.get(at)?;
    let k = count_of(w);
    let next = at + 1;
    if kind_of(w) == PATTERN {
        let end = build_variable(w, &left[next..], d, levels, bodies, out, to)?;
        return Some((next + k as usize, end));
    }
    if MOST_WORDS <= to {
        return None;
    }
    put(out, to, w);
    let inner = inside_word(w, d);
    let then = to + 1;
    build_row(inner, levels - 1, k, left, next, bodies, out, then)
}

// Builds `count` trees of a left side.
#[cycle(building)]
fn build_row(
    d: u32,
    levels: u32,
    count: u32,
    left: &[u32],
    at: usize,
    bodies: &Bodies,
    out: &mut [u32],
    to: usize,
) -> Option<(usize, usize)>
    requires { d + levels ≤ 64 }
    ensures { LeftBuilt d levels count left.now at bodies.now.words.now bodies.now.lengths.now out.old to out.new result }
{
    let mut a = at;
    let mut b = to;
    for _ in 0..count {
        (a, b) = build_tree(d, levels, left, a, bodies, out, b)?;
    }
    Some((a, b))
}

// Builds the left side of a rule of an accepted book, once the lengths and the bodies are judged.
fn build_given(vars: u32, left: &[u32], bodies: &Bodies, out: &mut [u32]) -> Answer
    requires { vars ≤ 16 }
    ensures { RuleBuilt vars left.now bodies.now.words.now bodies.now.lengths.now (length out.old) result out.new }
{
    clear(out);
    if !bodies.good_lengths(vars) {
        return Answer::BadTerm(AT_LENGTHS);
    }
    if let Err(x) = bodies.check_bodies(vars) {
        return Answer::BadTerm(x);
    }
    let Some((_, n)) = build_row(0, MOST_LEVELS, 1, left, 0, bodies, out, 0) else {
        clear(out);
        return Answer::Over;
    };
    if out.len() < n {
        clear(out);
        return Answer::Short;
    }
    Answer::Done
}

// Builds the left side of a rule from bodies, one list in variable order with sixteen lengths beside it.
pub fn build_left(
    book: &[u32],
    number: u32,
    bodies: &[u32],
    lengths: &[u32; 16],
    out: &mut [u32],
) -> Answer
    ensures { build_left_came (answered result) out.new ≡ build_left_gives book.now number bodies.now lengths.now (length out.old) }
{
    if let Err(answer) = accept_book(book) {
        clear(out);
        return answer;
    }
    let Some(sides) = find_rule(book, number) else {
        clear(out);
        return Answer::NoRule(number);
    };
    let given = Bodies {
        words: bodies,
        lengths,
    };
    build_given(sides.vars, sides.left(book), &given, out)
}

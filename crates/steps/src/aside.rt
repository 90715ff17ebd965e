// The arguments set aside by a rule: what is written takes them at its end, where its root is a symbol.
ghost use Rattle.std.specs.Prelude.{◌≡◌, ◌<◌, length, get_or};
ghost use Rattle.term.specs.Word.{count_of};
ghost use Rattle.walk.specs.Told.State.{Parted};
ghost use Rattle.steps.specs.Told.Aside.{root_of_word, RootTold, AttachTold};
ghost use Rattle.steps.specs.Told.Operations.{FrontWritten};

use crate::area::copy;
use crate::right::{child_at, write_right};
use book::limits::MOST_VARS_LONG;
use fit::build::start_of;
use term::answer::Answer;
use term::check::MOST_WORDS;
use term::part::part_end;
use term::word::{COUNT, PATTERN, SYMBOL, SYMBOL_COUNT, VARIABLE, count_of, id_of, kind_of};

// The word of a symbol, and none of any other.
fn root_of(w: u32) -> Option<u32>
    ensures { result ≡ root_of_word w }
{
    (kind_of(w) == SYMBOL).then_some(w)
}

// The root of what a right side writes, if that is a symbol, without writing it: where a pattern variable's body is one of its parameters, the
// root of the child there.
pub fn written_root(right: &[u32], bodies: &[u32], lengths: &[u32; MOST_VARS_LONG]) -> Option<u32>
    ensures { RootTold right.now 0 bodies.now lengths.now result }
{
    let mut at: usize = 0;
    // The next offset is known only when the body's root is read.
    while let Some(&w) = right.get(at) {
        if kind_of(w) != PATTERN {
            return root_of(w);
        }
        let x = id_of(w) as usize;
        if MOST_VARS_LONG <= x {
            return None;
        }
        let v = *bodies.get(start_of(lengths, x))?;
        if kind_of(v) != VARIABLE {
            return root_of(v);
        }
        let j = id_of(v);
        if j == 0 || count_of(w) < j {
            return None;
        }
        at = child_at(right, at + 1, j - 1);
    }
    None
}

// Puts arguments behind the first n words of what was written, and the word that counts them first. The size of all, none where it is over the area.
pub fn attach(new: &mut [u32; MOST_WORDS], n: usize, first: u32, arguments: &[u32]) -> Option<usize>
    ensures { AttachTold new.old n first arguments.now new.new result }
{
    if MOST_WORDS < n || MOST_WORDS - n < arguments.len() {
        return None;
    }
    new[0] = first;
    copy(arguments, new, n);
    Some(n + arguments.len())
}

// Writes a right side with the arguments after the first b of the part that the words begin with; there are some. How many words it has, or why it
// is refused.
fn write_aside(
    right: &[u32],
    b: u32,
    part: &[u32],
    bodies: &[u32],
    lengths: &[u32; MOST_VARS_LONG],
    out: &mut [u32; MOST_WORDS],
) -> Result<usize, Answer>
    requires { Parted part.now × (0 < length part.now) × (b < count_of (get_or part.now 0 0)) }
    ensures { FrontWritten right.now b part.now bodies.now lengths.now out.new result }
{
    let more = count_of(part[0]) - b;
    let w = written_root(right, bodies, lengths).ok_or(Answer::CannotTake(more))?;
    if SYMBOL_COUNT < count_of(w) + more {
        return Err(Answer::CannotTake(more));
    }
    let n = write_right(right, bodies, lengths, out).ok_or(Answer::Over)?;
    let from = child_at(part, 1, b);
    let end = part_end(part);
    attach(out, n, w + more * COUNT, &part[from..end]).ok_or(Answer::Over)
}

// Writes a right side with the arguments after the first b of the part that the words begin with. How many words it has, or why it is refused.
pub fn write_front(
    right: &[u32],
    b: u32,
    part: &[u32],
    bodies: &[u32],
    lengths: &[u32; MOST_VARS_LONG],
    out: &mut [u32; MOST_WORDS],
) -> Result<usize, Answer>
    requires { Parted part.now × (0 < length part.now) }
    ensures { FrontWritten right.now b part.now bodies.now lengths.now out.new result }
{
    if b < count_of(part[0]) {
        return write_aside(right, b, part, bodies, lengths, out);
    }
    write_right(right, bodies, lengths, out).ok_or(Answer::Over)
}

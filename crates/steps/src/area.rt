// Words copied into a lent slice, and a part replaced in the work area.
ghost use Rattle.std.specs.Prelude.{◌≡◌, ◌+◌, ◌≤◌, ◌<◌, length, take, replicate};
ghost use Rattle.std.proofs.Math.Seq.{paste};
ghost use Rattle.term.specs.Part.{padded};
ghost use Rattle.steps.specs.Told.Area.{SpliceTold};
ghost use Rattle.steps.specs.Told.Operations.{given_answer};

use term::answer::Answer;
use term::check::MOST_WORDS;
use term::part::part_end;

// Copies all words of a slice to an offset of another.
pub fn copy(from: &[u32], to: &mut [u32], at: usize)
    requires { at + length from.now ≤ length to.old }
    ensures { to.new ≡ paste to.old at from.now (length from.now) }
{
    // Word by word: the library's copy_from_slice makes the archive need memmove, which include/rosenduch.h does not name.
    for j in 0..from.len() {
        to[at + j] = from[j];
    }
}

// Gives an answer with words into a cleared slice, where they have room.
pub fn give(answer: Answer, words: &[u32], out: &mut [u32]) -> Answer
    requires { out.old ≡ replicate (length out.old) 0 }
    ensures { (result ≡ given_answer (length out.old) words.now answer) × (out.new ≡ padded (length out.old) words.now) }
{
    if out.len() < words.len() {
        return Answer::Short;
    }
    copy(words, out, 0);
    answer
}

// Puts the first n words of `new` for the part at an offset of the area's term, which has `size` words; what stands behind the part moves along.
// The size of the new term, none where it is over the area. Arrays with their sizes beside them, since there is no heap.
pub fn splice(
    area: &mut [u32; MOST_WORDS],
    size: usize,
    at: usize,
    new: &mut [u32; MOST_WORDS],
    n: usize,
) -> Option<usize>
    requires { (size ≤ 4096) × (at < size) × (n ≤ 4096) }
    ensures { SpliceTold (take size area.old) at (take n new.old) area.new result }
{
    let end = at + part_end(&area[at..size]);
    let rest = size - end;
    let behind = n + rest;
    if MOST_WORDS - at < behind {
        return None;
    }
    copy(&area[end..size], new, n);
    copy(&new[..behind], area, at);
    Some(at + behind)
}

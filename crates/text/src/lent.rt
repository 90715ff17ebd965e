// Slices that a caller lends for an answer.
ghost use Rattle.std.specs.Prelude.{◌≡◌, length, replicate};
ghost use Rattle.std.proofs.lemmas.List.Edits.{sets};
ghost use Rattle.text.specs.Given.{given_answer, given_left};

use term::answer::Answer;

// Leaves only zeros.
pub fn clear_bytes(out: &mut [u8])
    ensures { out.new ≡ replicate (length out.old) 0 }
{
    out.fill(0);
}

// Writes words or bytes from an offset on, where there is room for them.
pub fn put_all<T: Copy>(out: &mut [T], at: usize, from: &[T])
    ensures { out.new ≡ sets out.old at from.now }
{
    // By offset: it may lie past the end, where no slice begins.
    for to in at..out.len() {
        let Some(x) = from.get(to - at) else {
            return;
        };
        out[to] = *x;
    }
}

// Gives words into a cleared slice, where they were accepted and there is room.
// Not the one of steps: given_answer of specs/Given.antt refuses what was not accepted; that of steps hands any answer on with its words.
pub fn give(words: &[u32], accepted: Result<(), Answer>, out: &mut [u32]) -> Answer
    requires { out.old ≡ replicate (length out.old) 0 }
    ensures { (result ≡ given_answer (length out.old) words.now accepted)
        × (out.new ≡ given_left (length out.old) words.now accepted) }
{
    if let Err(answer) = accepted {
        return answer;
    }
    if out.len() < words.len() {
        return Answer::Short;
    }
    put_all(out, 0, words);
    Answer::Done
}

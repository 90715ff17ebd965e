// The two lines that a program prints where a file is refused.
ghost use Rattle.std.specs.Prelude.{◌≡◌, ◌≤◌, length};
ghost use Rattle.std.proofs.lemmas.List.Edits.{sets};
ghost use Rattle.term.specs.Answer.{place_of};
ghost use Rattle.text.specs.Refusal.{refusal_block};

use crate::write_book::write_number_line;
use term::answer::{Answer, number, place};

// Refusals are from this number up, as refused of specs/Refusal.antt asks.
pub const FIRST_REFUSAL: u32 = 10;

// Writes the two lines; the offset after them.
pub fn write_refusal(answer: Answer, out: &mut [u8]) -> usize
    requires { place_of answer ≤ 70000 }
    ensures { (result ≡ length (refusal_block answer)) × (out.new ≡ sets out.old 0 (refusal_block answer)) × (result ≤ 100) }
{
    let at = write_number_line(out, 0, b"answer=", number(answer));
    write_number_line(out, at, b"at=", place(answer) as u32)
}

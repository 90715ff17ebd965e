// What is printed for a text that came by mail.
ghost use Rattle.std.specs.Prelude.{◌≡◌, ◌≤◌, length};
ghost use Rattle.term.specs.Part.{padded};
ghost use Rattle.repair.specs.Printed.{printed};

use crate::BLOCK;
use mend::repair::repair;
use text::refusal::write_refusal;

// Writes the repaired text, or the lines of its refusal; so many bytes are to be printed.
#[tactic(auto, using(crate::proofs::Blocks::decided, crate::proofs::Blocks::over_zeros))]
pub fn repair_block(text: &[u8], out: &mut [u8; BLOCK]) -> usize
    ensures { (result ≡ length (printed text.now)) × (result ≤ 131088) × (out.new ≡ padded 131088 (printed text.now)) }
{
    match repair(text, out) {
        Ok(length) => length,
        Err(answer) => write_refusal(answer, out),
    }
}

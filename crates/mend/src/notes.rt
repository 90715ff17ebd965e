// The lines after a repaired book: which rules were kept and dropped, and the number that was stated.
ghost use Rattle.std.specs.Prelude.{◌≡◌, ◌+◌, ◌≤◌, length, drop};
ghost use Rattle.std.proofs.lemmas.List.Edits.{sets};
ghost use Rattle.mend.specs.Repair.{kept, note_text, notes_text, was_text};
ghost use Rattle.mend.specs.Told.Told.{first_is, notes_by};

use term::lent::put;
use text::line::{BLANK, END};
use text::number::write_number;
use text::write_book::{put_key, write_number_line};

// Writes the line of a rule that was kept; the offset after it.
fn write_kept(out: &mut [u8], at: usize, old: usize, new: usize) -> usize
    requires { (at ≤ 800000) × (old ≤ 65536) × (new ≤ 65536) }
    ensures { (result ≡ at + length (note_text (kept old new))) × (out.new ≡ sets out.old at (note_text (kept old new))) }
{
    let old_at = put_key(out, at, b"kept=");
    let blank_at = write_number(out, old_at, old as u32);
    put(out, blank_at, BLANK);
    let end = write_number(out, blank_at + 1, new as u32);
    put(out, end, END);
    end + 1
}

// Whether the rule with this old number is the next that is kept.
fn is_kept(olds: &[u32], new: usize, old: usize) -> bool
    ensures { result ≡ first_is old (drop new olds.now) }
{
    new < olds.len() && olds[new] as usize == old
}

// Writes a line for each rule present, of which those with the old numbers were kept; the offset after them.
pub fn write_notes(out: &mut [u8], at: usize, present: usize, olds: &[u32]) -> usize
    requires { (at ≤ 70000) × (present ≤ 3200) }
    ensures { (result ≡ at + length (notes_text (notes_by 0 0 present olds.now)))
        × (out.new ≡ sets out.old at (notes_text (notes_by 0 0 present olds.now))) × (result ≤ 200000) }
{
    let mut to = at;
    let mut new: usize = 0;
    for old in 0..present {
        if is_kept(olds, new, old) {
            to = write_kept(out, to, old, new);
            new += 1;
        } else {
            to = write_number_line(out, to, b"dropped=", old as u32);
        }
    }
    to
}

// Writes the number that was stated, where it is not that of the rules present; the offset after it.
pub fn write_was(out: &mut [u8], at: usize, stated: u32, present: usize) -> usize
    requires { (at ≤ 200000) × (stated ≤ 65535) }
    ensures { (result ≡ at + length (was_text stated present)) × (out.new ≡ sets out.old at (was_text stated present)) }
{
    if stated as usize == present {
        return at;
    }
    write_number_line(out, at, b"rules-was=", stated)
}

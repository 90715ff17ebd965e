// The text of the blocks that are printed for a file that is not refused.
ghost use Rattle.std.specs.Prelude.{◌≡◌, [], ◌+◌, ◌≤◌, length, take};
ghost use Rattle.std.proofs.lemmas.List.Edits.{sets};
ghost use Rattle.term.specs.Part.{part_end};
ghost use Rattle.text.specs.Line.{line_text};
ghost use Rattle.simplify.specs.Printed.{head_text, answer_text};

use term::answer::{Answer, number};
use term::check::MOST_WORDS;
use term::part::part_end;
use text::line::write_line;
use text::write_book::{put_key, write_number_line};

// Writes the three lines of the head; the offset after them.
pub fn write_head(rules: u32, tree: u32, out: &mut [u8]) -> usize
    requires { (rules ≤ 64) × (tree ≤ 16384) }
    ensures { (result ≡ length (head_text rules tree)) × (out.new ≡ sets out.old 0 (head_text rules tree)) × (result ≤ 100) }
{
    let rules_at = put_key(out, 0, b"book=1\n");
    let tree_at = write_number_line(out, rules_at, b"rules=", rules);
    write_number_line(out, tree_at, b"tree=", tree)
}

// Writes the lines of a term up to the key of its result; the offset after them.
pub fn write_answer(term: u32, answer: Answer, steps: u32, out: &mut [u8]) -> usize
    requires { (term ≤ 65536) × (steps ≤ 65535) }
    ensures { (result ≡ length (answer_text term answer steps [])) × (out.new ≡ sets out.old 0 (answer_text term answer steps [])) × (result ≤ 100) }
{
    let answer_at = write_number_line(out, 0, b"term=", term);
    let steps_at = write_number_line(out, answer_at, b"answer=", number(answer));
    let result_at = write_number_line(out, steps_at, b"steps=", steps);
    put_key(out, result_at, b"result=")
}

// Writes the line of the term that the words begin with; the offset after it.
pub fn write_result(words: &[u32; MOST_WORDS], out: &mut [u8], at: usize) -> usize
    requires { at ≤ 100 }
    ensures { (result ≡ at + length (line_text (take (part_end words.now) words.now)))
        × (out.new ≡ sets out.old at (line_text (take (part_end words.now) words.now))) }
{
    let end = part_end(words);
    write_line(&words[..end], out, at)
}

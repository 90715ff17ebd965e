// Tokens in a text: one for each word of a term or of a rule's side.
ghost use Rattle.std.specs.Prelude.{◌≡◌, ◌+◌, ◌≤◌, length};
ghost use Rattle.std.proofs.lemmas.List.Edits.{sets};
ghost use Rattle.term.specs.Word.{count_of, ident_of};
ghost use Rattle.text.specs.Token.{dotted, word_text};
ghost use Rattle.text.specs.Told.Told.{DottedTold, VariableTold, TokenTold};

use crate::number::{read_number, write_number};
use term::lent::put;
use term::word::{
    ABSTRACTION, ABSTRACTION_RANK, COUNT, KIND, PATTERN, PATTERN_COUNT, PATTERN_ID, PATTERN_RANK,
    SYMBOL, SYMBOL_COUNT, SYMBOL_ID, SYMBOL_RANK, VARIABLE, VARIABLE_ID, VARIABLE_RANK, count_of,
    id_of, table_rank,
};

const DOT: u8 = b'.';

// The word of this kind whose id and count stand at `at`, with a dot between them, and the offset after it.
fn read_dotted(text: &[u8], at: usize, kind: u32, ids: u32, counts: u32) -> Option<(u32, usize)>
    requires { (kind ≤ 3) × (ids ≤ 65535) × (counts ≤ 15) }
    ensures { DottedTold kind ids counts text.now at result }
{
    let (i, dot) = read_number(text, at, ids)?;
    if *text.get(dot)? != DOT {
        return None;
    }
    let (c, next) = read_number(text, dot + 1, counts)?;
    Some((kind * KIND + c * COUNT + i, next))
}

// The variable whose id stands at `at`, and the offset after it.
fn read_variable(text: &[u8], at: usize) -> Option<(u32, usize)>
    ensures { VariableTold text.now at result }
{
    let (i, next) = read_number(text, at, VARIABLE_ID)?;
    if i == 0 {
        return None;
    }
    Some((VARIABLE * KIND + i, next))
}

// The word whose token stands at `at`, and the offset after it.
pub fn read_token(text: &[u8], at: usize) -> Option<(u32, usize)>
    ensures { TokenTold text.now at result }
{
    match *text.get(at)? {
        b's' => read_dotted(text, at + 1, SYMBOL, SYMBOL_ID, SYMBOL_COUNT),
        b'l' => Some((ABSTRACTION * KIND + COUNT, at + 1)),
        b'v' => read_variable(text, at + 1),
        b'm' => read_dotted(text, at + 1, PATTERN, PATTERN_ID, PATTERN_COUNT),
        _ => None,
    }
}

// Writes a word's id, a dot and its count; the offset after them.
fn write_dotted(out: &mut [u8], at: usize, w: u32) -> usize
    requires { at ≤ 3000001 }
    ensures { (result ≡ at + length (dotted (ident_of w) (count_of w))) × (out.new ≡ sets out.old at (dotted (ident_of w) (count_of w))) }
{
    let dot = write_number(out, at, id_of(w));
    put(out, dot, DOT);
    write_number(out, dot + 1, count_of(w))
}

// Writes the token of a word; the offset after it.
pub fn write_token(out: &mut [u8], at: usize, w: u32) -> usize
    requires { at ≤ 3000000 }
    ensures { (result ≡ at + length (word_text w)) × (out.new ≡ sets out.old at (word_text w)) }
{
    match table_rank(w) {
        SYMBOL_RANK => {
            put(out, at, b's');
            write_dotted(out, at + 1, w)
        }
        ABSTRACTION_RANK => {
            put(out, at, b'l');
            at + 1
        }
        VARIABLE_RANK => {
            put(out, at, b'v');
            write_number(out, at + 1, id_of(w))
        }
        PATTERN_RANK => {
            put(out, at, b'm');
            write_dotted(out, at + 1, w)
        }
        _ => at,
    }
}

// Whether two parts, each under its own abstractions and with its own list, have the same body. The second part is `others`, under c
// abstractions, with the list `ids`.
ghost use Rattle.std.specs.Prelude.{◌≡◌, ◌&&◌, true, ◌≤◌, eqb, leb, ltb, length};
ghost use Rattle.term.specs.Part.{same_body};
ghost use Rattle.term.specs.Renumber.{good_list, id_body};
ghost use Rattle.term.specs.Told.Walk.{image_of, same_image, inner_word, meeting};
ghost use Rattle.term.specs.Word.{head_of};

use crate::check::{MOST_NESTING, MOST_WORDS, OPEN_LEVELS};
use crate::image::{Way, renumber_word};
use crate::renumber::inside_word;
use crate::word::{VARIABLE_RANK, count_of, id_of, table_rank};

// A place of two lists, in each of which an id is sought: both have it there, neither has, or they part: one has it alone, or has ended.
#[derive(Clone, Copy)]
pub enum Met {
    Both,
    Neither,
    Apart,
}

// Whether both parts have a word there, within what a term may have.
fn both_stand(words: &[u32], others: &[u32], at: usize, depth: usize) -> bool
    ensures { result ≡ ltb at (length words.now) && (ltb at (length others.now) && (ltb at 4096 && leb depth 64)) }
{
    at < words.len() && at < others.len() && at < MOST_WORDS && depth <= MOST_NESTING
}

// Whether a word is a variable i with e < i ≤ e+d.
#[tactic(auto, unfolding(crate::specs::Told::Walk::inner_word))]
fn is_inner(d: u32, e: u32, w: u32) -> bool
    ensures { result ≡ inner_word d e w }
{
    let i = id_of(w);
    table_rank(w) == VARIABLE_RANK && e < i && i - e <= d
}

fn both_inner(d: u32, c: u32, e: u32, w: u32, x: u32) -> bool
    ensures { result ≡ inner_word d e w && inner_word c e x }
{
    is_inner(d, e, w) && is_inner(c, e, x)
}

// What the lists, in which y and z are sought, have at j.
#[tactic(auto, unfolding(crate::specs::Told::Walk::meeting, crate::specs::Told::Walk::meets))]
fn met_at(list: &[u32], y: u32, ids: &[u32], z: u32, j: usize) -> Met
    ensures { result ≡ meeting list.now y ids.now z j }
{
    if list.len() <= j || ids.len() <= j {
        return Met::Apart;
    }
    match (y == list[j], z == ids[j]) {
        (true, true) => Met::Both,
        (false, false) => Met::Neither,
        _ => Met::Apart,
    }
}

// Whether two words have the same image.
#[tactic(auto, unfolding(crate::specs::Told::Walk::image, crate::specs::Told::Walk::same_image))]
fn same_word(d: u32, list: &[u32], c: u32, ids: &[u32], e: u32, w: u32, x: u32) -> bool
    requires { (length list.now ≤ 4) × (length ids.now ≤ 4) × (e ≤ 64) }
    ensures { result ≡ same_image (image_of (id_body d list.now) e (head_of w)) (image_of (id_body c ids.now) e (head_of x)) }
{
    let Some(v) = renumber_word(Way::ToBody, d, list, e, w) else {
        return false;
    };
    let Some(u) = renumber_word(Way::ToBody, c, ids, e, x) else {
        return false;
    };
    v == u
}

// How many levels are still open where one pass over both parts ends: none just where they have the same body. The open levels lie in `left`,
// the innermost last, each with the number of its trees that are still to begin, and in `under` with the abstractions around them: arrays with
// their depth beside them, since there is no heap. The loops count by hand: document 01 asks for nested loops with a label here.
pub fn left_open(words: &[u32], d: u32, list: &[u32], others: &[u32], c: u32, ids: &[u32]) -> usize
    requires { (good_list d list.now ≡ true) × (good_list c ids.now ≡ true) }
    ensures { eqb result 0 ≡ same_body d list.now words.now c ids.now others.now }
{
    let mut left = [1u32; OPEN_LEVELS];
    let mut under = [0u32; OPEN_LEVELS];
    let mut depth = 1;
    let mut at = 0;
    'pass: while depth != 0 {
        if left[depth - 1] == 0 {
            depth -= 1;
            continue 'pass;
        }
        if !both_stand(words, others, at, depth) {
            break 'pass;
        }
        let w = words[at];
        let x = others[at];
        let e = under[depth - 1];
        left[depth - 1] -= 1;
        left[depth] = count_of(w);
        under[depth] = inside_word(w, e);
        depth += 1;
        at += 1;
        if both_inner(d, c, e, w, x) {
            let mut j = 0;
            loop {
                match met_at(list, id_of(w) - e, ids, id_of(x) - e, j) {
                    Met::Neither => j += 1,
                    Met::Both => break,
                    Met::Apart => break 'pass,
                }
            }
        } else if !same_word(d, list, c, ids, e, w, x) {
            break 'pass;
        }
    }
    depth
}

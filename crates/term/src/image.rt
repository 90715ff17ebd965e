// Images of ids, words and rows, from a term's part to its body and back.
ghost use Rattle.std.specs.Prelude.{◌≡◌, ◌+◌, ◌≤◌, length};
ghost use Rattle.term.specs.Word.{head_of};
ghost use Rattle.term.specs.Renumber.{id_body, within, id_term_within};
ghost use Rattle.term.specs.Told.Walk.{image, image_of, RowTold};

use crate::lent::put;
use crate::list::position_of;
use crate::renumber::{NO_ID, inside_word};
use crate::word::{
    KIND, TERM_RANK, VARIABLE, VARIABLE_ID, VARIABLE_RANK, count_of, id_of, table_rank,
};

const MOST_ID: u64 = VARIABLE_ID as u64;

// The way is an argument of the definition image, and one walk serves both.
#[derive(Clone, Copy)]
pub enum Way {
    ToBody,
    ToTerm,
}

// Term to body: an id under e abstractions of the part's own.
#[tactic(auto, using(crate::proofs::Lists::position_le), unfolding(crate::specs::Renumber::id_body))]
fn body_id(d: u32, list: &[u32], e: u32, i: u32) -> u32
    requires { (length list.now ≤ 4) × (e ≤ 64) × (i ≤ 65535) }
    ensures { result ≡ id_body d list.now e i }
{
    if i <= e {
        i
    } else if i - e <= d {
        let j = position_of(i - e, list);
        if j == 0 { NO_ID } else { e + j as u32 }
    } else {
        i - d + list.len() as u32
    }
}

#[tactic(auto, unfolding(crate::specs::Renumber::within))]
fn id_within(i: u64) -> u32
    ensures { result ≡ within i }
{
    if i <= MOST_ID { i as u32 } else { NO_ID }
}

// Body to term: an id under e abstractions of the body's own.
#[tactic(auto, unfolding(crate::specs::Renumber::id_term, crate::specs::Renumber::id_term_within, crate::specs::Renumber::within))]
fn term_id(d: u32, list: &[u32], e: u32, i: u32) -> u32
    requires { (length list.now ≤ 4) × (e ≤ 64) × (i ≤ 65535) }
    ensures { result ≡ id_term_within d list.now e i }
{
    if i <= e {
        return i;
    }
    let j = (i - e) as usize;
    id_within(if j <= list.len() {
        e as u64 + list[j - 1] as u64
    } else {
        i as u64 - list.len() as u64 + d as u64
    })
}

#[tactic(auto, unfolding(crate::specs::Told::Walk::image))]
fn renumber_id(way: Way, d: u32, list: &[u32], e: u32, i: u32) -> u32
    requires { (length list.now ≤ 4) × (e ≤ 64) × (i ≤ 65535) }
    ensures { result ≡ image way d list.now e i }
{
    match way {
        Way::ToBody => body_id(d, list, e, i),
        Way::ToTerm => term_id(d, list, e, i),
    }
}

// The image of a word, where it is a term's word and its id has one.
pub fn renumber_word(way: Way, d: u32, list: &[u32], e: u32, w: u32) -> Option<u32>
    requires { (length list.now ≤ 4) × (e ≤ 64) }
    ensures { result ≡ image_of (image way d list.now) e (head_of w) }
{
    let r = table_rank(w);
    if TERM_RANK < r {
        return None;
    }
    if r != VARIABLE_RANK {
        return Some(w);
    }
    let i = renumber_id(way, d, list, e, id_of(w));
    if i == NO_ID {
        return None;
    }
    Some(VARIABLE * KIND + i)
}

// The images of `count` trees from `at` on, each word's at its own offset of `out`, and where they end. A call goes one level down, and the loop along the row.
pub fn renumber_row(
    way: Way,
    d: u32,
    list: &[u32],
    e: u32,
    levels: u32,
    count: u32,
    words: &[u32],
    at: usize,
    out: &mut [u32],
) -> Option<usize>
    requires { (length list.now ≤ 4) × (e + levels ≤ 64) }
    ensures { RowTold (image way d list.now) e levels count words.now at out.old out.new result }
{
    let mut a = at;
    for _ in 0..count {
        if levels == 0 {
            return None;
        }
        let w = *words.get(a)?;
        let v = renumber_word(way, d, list, e, w)?;
        put(out, a, v);
        let inner = inside_word(w, e);
        let below = count_of(w);
        a = renumber_row(way, d, list, inner, levels - 1, below, words, a + 1, out)?;
    }
    Some(a)
}

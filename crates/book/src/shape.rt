// The shapes of left and right sides.
ghost use Rattle.std.specs.Prelude.{◌≡◌, ◌+◌, ◌≤◌, ◌<◌, length};
ghost use Rattle.book.specs.Told.Shape.{front_of, SideTold};

use crate::ids::list_for;
use term::renumber::inside_word;
use term::word::{PATTERN, VARIABLE, count_of, id_of, kind_of};

// The side is an argument of the definition front_of, and one walk serves both.
#[derive(Clone, Copy)]
pub enum Side {
    Left,
    Right,
}

// What a word that may stand in a side is: with its list it takes so many words, or its children are to be gone into.
#[derive(Clone, Copy)]
pub enum Front {
    Past(usize),
    Inside,
}

fn left_front(d: u32, w: u32, words: &[u32]) -> Option<Front>
    ensures { result ≡ front_of Side.Left d w words.now }
{
    match kind_of(w) {
        VARIABLE => None,
        PATTERN => {
            let k = count_of(w) as usize;
            if list_for(words, k, d) {
                Some(Front::Past(1 + k))
            } else {
                None
            }
        }
        _ => Some(Front::Inside),
    }
}

fn right_front(d: u32, w: u32, words: &[u32]) -> Option<Front>
    ensures { result ≡ front_of Side.Right d w words.now }
{
    match kind_of(w) {
        VARIABLE if d < id_of(w) => None,
        VARIABLE => Some(Front::Past(1)),
        _ => Some(Front::Inside),
    }
}

// What the word is, where it may stand there.
fn front_of(side: Side, d: u32, w: u32, words: &[u32]) -> Option<Front>
    ensures { result ≡ front_of side d w words.now }
{
    match side {
        Side::Left => left_front(d, w, words),
        Side::Right => right_front(d, w, words),
    }
}

// Where `count` trees from `at` on end, if they have the shape of the side under d abstractions. A call goes one level down, and the loop along the row.
pub fn side_row(
    side: Side,
    d: u32,
    levels: u32,
    count: u32,
    words: &[u32],
    at: usize,
) -> Option<usize>
    requires { d + levels ≤ 64 }
    ensures { SideTold side d levels count words.now at result }
{
    let mut a = at;
    for _ in 0..count {
        if levels == 0 {
            return None;
        }
        let w = *words.get(a)?;
        let next = a + 1;
        match front_of(side, d, w, &words[next..])? {
            Front::Past(n) => a += n,
            Front::Inside => {
                let inner = inside_word(w, d);
                a = side_row(side, inner, levels - 1, count_of(w), words, next)?;
            }
        }
    }
    Some(a)
}

// What the renumbering of ids shares with the crates above.
ghost use Rattle.std.specs.Prelude.{◌≡◌, ◌≤◌};
ghost use Rattle.term.specs.Told.Walk.{inside_word};

use crate::word::{ABSTRACTION, kind_of};

// No variable has this id: it says that an id has no image, as `id_body` of specs/Renumber.antt does.
pub const NO_ID: u32 = 0;

// The abstractions around the children of a word under e.
#[tactic(auto, unfolding(crate::specs::Told::Walk::inside_word))]
pub fn inside_word(w: u32, e: u32) -> u32
    requires { e ≤ 64 }
    ensures { result ≡ inside_word w e }
{
    if kind_of(w) == ABSTRACTION { e + 1 } else { e }
}

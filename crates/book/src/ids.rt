// The list of a pattern variable.
ghost use Rattle.std.specs.Prelude.{◌≡◌};
ghost use Rattle.book.specs.Told.Ids.{list_in, four_of};
ghost use Rattle.book.specs.Rule.{list_for};

use term::list::{MOST_IDS, good_list};
use term::word::{VARIABLE_RANK, id_of, table_rank};

// The ids of the k variables that the words begin with, and then zeros. The caller has k; there is no heap for a list as long as that.
pub fn ids_of(words: &[u32], k: usize) -> Option<[u32; 4]>
    ensures { result ≡ four_of (list_in k words.now) }
{
    if MOST_IDS < k {
        return None;
    }
    let variables = words.get(..k)?;
    let mut ids = [0u32; 4];
    for (j, w) in variables.iter().enumerate() {
        if table_rank(*w) != VARIABLE_RANK {
            return None;
        }
        ids[j] = id_of(*w);
    }
    Some(ids)
}

// Whether the words begin with k variables whose ids are a list for d.
pub fn list_for(words: &[u32], k: usize, d: u32) -> bool
    ensures { result ≡ list_for d (list_in k words.now) }
{
    match ids_of(words, k) {
        Some(ids) => good_list(d, &ids[..k]),
        None => false,
    }
}

// A word and its parts: word = kind * KIND + count * COUNT + id.
ghost use Rattle.std.specs.Prelude.{◌≡◌};
ghost use Rattle.term.specs.Word.{kind_of, count_of, ident_of, head_with, head_of};
ghost use Rattle.term.specs.Check.{rank_or};

pub const KIND: u32 = 16777216;

pub const COUNT: u32 = 65536;

pub const COUNTS: u32 = 256;

// The kinds. Numbers: the words lie as C lends them.
pub const SYMBOL: u32 = 0;

pub const ABSTRACTION: u32 = 1;

pub const VARIABLE: u32 = 2;

pub const PATTERN: u32 = 3;

// The largest ids and counts of the table: of symbols, variables and pattern variables.
pub const SYMBOL_ID: u32 = 1023;

pub const SYMBOL_COUNT: u32 = 15;

pub const VARIABLE_ID: u32 = 65535;

pub const PATTERN_ID: u32 = 15;

pub const PATTERN_COUNT: u32 = 4;

// Where a word of the table may stand, in order. Numbers: `rank_or` of specs/Check.antt and the ranks of its `Limits` say them, and `check_tree` compares them.
pub const SYMBOL_RANK: u32 = 0;

pub const ABSTRACTION_RANK: u32 = 1;

pub const VARIABLE_RANK: u32 = 2;

pub const PATTERN_RANK: u32 = 3;

// What no word of the table has.
pub const NO_RANK: u32 = 4;

// The largest rank of a term's word, and of a side's.
pub const TERM_RANK: u32 = 2;

pub const SIDE_RANK: u32 = 3;

pub fn kind_of(w: u32) -> u32
    ensures { result ≡ kind_of w }
{
    w / KIND
}

pub fn count_of(w: u32) -> u32
    ensures { result ≡ count_of w }
{
    w / COUNT % COUNTS
}

pub fn id_of(w: u32) -> u32
    ensures { result ≡ ident_of w }
{
    w % COUNT
}

// The rank of the word with these parts, where the table has it, or NO_RANK.
#[tactic(auto, unfolding(crate::specs::Word::head_with, crate::specs::Word::rank))]
fn rank_with(k: u32, c: u32, i: u32) -> u32
    ensures { result ≡ rank_or 4 (head_with k c i) }
{
    match k {
        SYMBOL if c <= SYMBOL_COUNT && i <= SYMBOL_ID => SYMBOL_RANK,
        ABSTRACTION if c == 1 && i == 0 => ABSTRACTION_RANK,
        VARIABLE if c == 0 && 1 <= i => VARIABLE_RANK,
        PATTERN if c <= PATTERN_COUNT && i <= PATTERN_ID => PATTERN_RANK,
        _ => NO_RANK,
    }
}

// The rank of a word that the table has, or NO_RANK.
#[tactic(auto, unfolding(crate::specs::Word::head_of))]
pub fn table_rank(w: u32) -> u32
    ensures { result ≡ rank_or 4 (head_of w) }
{
    rank_with(kind_of(w), count_of(w), id_of(w))
}

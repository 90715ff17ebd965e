// The limits of a book; where a number is asked for in two types, one is made from the other.
// A side has at most so many words.
pub const MOST_SIDE: usize = 64;

// A side nests at most so deep.
pub const SIDE_NESTING: usize = 16;

pub const SIDE_LEVELS: u32 = SIDE_NESTING as u32;

// A rule has at most so many variables.
pub const MOST_VARS: u32 = 16;

pub const MOST_VARS_LONG: usize = MOST_VARS as usize;

// A book has at most so many rules.
pub const MOST_RULES: u32 = 64;

pub const MOST_RULES_LONG: usize = MOST_RULES as usize;

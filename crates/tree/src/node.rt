// What stands in the words of a tree.
// A node's first word says what it is. The tags are numbers, since a tree's words lie in memory that C lends.
pub const FAIL: u32 = 0;

pub const LEAF: u32 = 1;

pub const SWITCH: u32 = 2;

pub const CLOSED: u32 = 3;

pub const SAME: u32 = 4;

// A tree has at most so many words.
pub const MOST_TREE: usize = 16384;

// Walking a tree in words: document 01's "Walking".
#![tactic(auto)]

pub mod by_tree;
mod decide;
mod leaf;
mod state;
mod taken;
pub mod with_book;

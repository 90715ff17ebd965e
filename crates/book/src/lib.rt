// Books of rules in memory: document 01's "The book".
#![tactic(auto)]

pub mod accept;
pub mod book;
pub mod ids;
pub mod limits;
mod rule;
mod shape;
pub mod variables;

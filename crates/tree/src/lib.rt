// The tree: document 01's "The tree". What the compiler and the walk share.
#![tactic(auto)]

pub mod node;

// The compiler: from a book to its tree.
#![tactic(auto)]

pub mod compile;
mod constraint;
mod constraints;
mod heads;
mod load;
mod nodes;
mod numbers;
mod root;
mod table;
mod words;

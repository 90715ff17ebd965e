// Writing a right side, rewriting at the root, a step and simplifying: document 01's "Right sides and simplifying".
#![tactic(auto)]

mod area;
mod aside;
pub mod rewrite;
mod right;
mod rules;
pub mod simplify;
mod under;

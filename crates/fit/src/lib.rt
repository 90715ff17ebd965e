// Fit of one rule: document 01's "Fit".
#![tactic(auto)]

mod bodies;
pub mod build;
mod fitting;
pub mod rules;

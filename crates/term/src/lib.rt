// Terms as words in prefix order: document 01's "Words" and "Renumbering".
#![tactic(auto)]

pub mod answer;
pub mod check;
mod image;
pub mod lengths;
pub mod lent;
pub mod list;
pub mod part;
pub mod renumber;
mod same;
pub mod word;

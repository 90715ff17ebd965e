// The public operations of Rosenduch, one function each.
#![tactic(auto)]

pub mod operations;

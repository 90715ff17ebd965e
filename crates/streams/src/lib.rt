// What every program of the repository does with standard input, output and error.
#![tactic(auto)]

mod reason;
pub mod standard;

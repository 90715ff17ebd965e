// Repairing a book that came by mail: document 02's E1.
#![tactic(auto)]

pub mod kept;
pub mod mail;
pub mod notes;
pub mod repair;

// The direct walk's middle: the lists and the fields of statements.
#![tactic(auto)]

pub mod field;
pub mod list;

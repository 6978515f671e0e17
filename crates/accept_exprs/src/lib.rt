// The direct walk's lower half: leaves and expressions.
#![tactic(auto)]

pub mod expr;
pub mod leaf;

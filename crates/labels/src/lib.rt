// The labelled lines in lent work, and the search for a label among them.
#![tactic(auto)]

pub mod chains;
pub mod marks;

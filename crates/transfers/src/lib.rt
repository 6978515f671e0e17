// Statements compiled: OPEN and LOAD of compiler.rs.
#![tactic(auto)]

pub mod loads;
pub mod opens;

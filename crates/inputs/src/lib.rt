// Statements compiled: INPUT of compiler.rs.
#![tactic(auto)]

pub mod input;

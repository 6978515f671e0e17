// Statements compiled: PRINT and WRITE of compiler.rs.
#![tactic(auto)]

pub mod prints;
pub mod writes;

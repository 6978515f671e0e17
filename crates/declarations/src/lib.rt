// Statements compiled: DATA, DEF, DIM and FIELD of compiler.rs.
#![tactic(auto)]

pub mod data;
pub mod define;
pub mod dim;
pub mod field;

// Statements compiled: compile_stmt and compile_if of compiler.rs, over the functions for each kind of statement.
#![tactic(auto)]

pub mod plain;
pub mod stmt;

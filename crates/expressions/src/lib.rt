// Expressions compiled: compile_expr and compile_lvalue of compiler.rs.
#![tactic(auto)]

pub mod expr;
pub mod surplus;

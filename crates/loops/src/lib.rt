// Statements compiled: FOR, NEXT and WHILE of compiler.rs.
#![tactic(auto)]

pub mod for_loop;
pub mod while_loop;

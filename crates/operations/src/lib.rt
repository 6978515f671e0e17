// Statements compiled: operations, drawing and LOCATE, of compile_stmt of compiler.rs.
#![tactic(auto)]

pub mod draw;
pub mod locate;
pub mod op;

// Statements compiled: GOSUB, GOTO, RESTORE and ON of compile_stmt of compiler.rs.
#![tactic(auto)]

pub mod jump;

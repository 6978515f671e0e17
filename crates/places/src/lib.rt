// Statements compiled: LET, SWAP and READ of compile_stmt of compiler.rs.
#![tactic(auto)]

pub mod place;

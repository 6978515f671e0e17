// The sheet: its form as one table, its leaves, and a reader of its words. Named after ast/expr.rs and ast/stmt.rs of the Rust.
#![tactic(auto)]

pub mod form;
pub mod leaf;
pub mod reader;

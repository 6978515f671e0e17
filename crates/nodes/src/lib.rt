// What compile_expr of compiler.rs does for one node, without its children.
#![tactic(auto)]

pub mod node;
pub mod source;

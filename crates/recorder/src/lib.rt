// What a sheet and a compiled list have in common, and the recorder that lists are made by.
// Named after ast/label.rs and vm/codegen.rs of the Rust.
#![tactic(auto)]

pub mod call;
pub mod codegen;
pub mod label;
pub mod number;
pub mod unit;
pub mod word;

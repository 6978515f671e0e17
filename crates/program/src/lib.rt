// The lines of a program compiled, with their labels: the first half of compile_prog of compiler.rs.
#![tactic(auto)]

pub mod line;

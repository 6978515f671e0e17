// Closing up: jumps and RESTOREs find their lines, the second half of compile_prog of compiler.rs.
#![tactic(auto)]

pub mod resolve;

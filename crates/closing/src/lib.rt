// Closing up what is the recorder's: the passes over the list. Named after vm/codegen.rs of the Rust.
#![tactic(auto)]

pub mod closing;

// The leaves of the compiler: the kinds of values, the reading of a name, and what functions and statements want. Its specs/
// hold document 01's rules.
#![tactic(auto)]

pub mod name;
pub mod tables;
pub mod types;

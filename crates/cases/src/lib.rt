// No code: the theorem that the rules, computed on stored inputs, give what the Rust says.
#![tactic(auto)]

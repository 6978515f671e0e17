// No code: the theorem that compiling reads the text only at places of the ranges that it compiles.
#![tactic(auto)]

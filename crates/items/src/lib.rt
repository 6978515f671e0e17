// No code: the theorems that carry what the form checked of each item of a sheet to the tree that is read there.
#![tactic(auto)]

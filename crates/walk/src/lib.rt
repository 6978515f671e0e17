// The skip over a sheet by the table of its form, the first word of a line, the end of the sheet, and the shapes of statements.
#![tactic(auto)]

pub mod shape;
pub mod stmt;

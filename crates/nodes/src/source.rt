// What a line is compiled from.

// The sheet and the text, and where the line begins in the text. It is read, and lent beside CodeGen, which is written: in one struct
// each contract would also say that sheet, text and base stay. Clauses name its parts one by one, as the rules take them: what reads one
// part alone promises its clause for any others.
#[derive(Clone, Copy)]
pub struct Source<'a> {
    pub sheet: &'a [u32],
    pub text: &'a [u16],
    pub base: u32,
}

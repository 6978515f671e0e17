// The lines of a program: compile_prog of compiler.rs.
ghost use Rattle.std.specs.Prelude.{◌≡◌, List, ℕ};
ghost use Rattle.recorder.specs.Mem.{mem_r, as_word, datum_word};
ghost use Rattle.recorder.specs.CodeGen.{mem_of, SameLoans};
ghost use Rattle.rules.specs.Program.{last_label, label_note};
ghost use Rattle.jumps.specs.Parts.{target_of};
ghost use Rattle.program.specs.Line.{line_work, line_count, label_word, CompiledLine, Programmed};

use nodes::source::Source;
use recorder::call::Class;
use recorder::codegen::CodeGen;
use recorder::label::{Addr, DatumIndex, Label};
use recorder::number::DEPTH_LIMIT;
use recorder::word::Range;

// How far the lines are compiled: where the next one is, how many labelled ones there are so far, the last label, and where the next
// line begins in the text.
#[derive(Clone, Copy)]
pub struct Lines {
    pub at: usize,
    pub marks: usize,
    pub last: Option<Label>,
    pub base: u32,
}

// "1 labels not rising". Here and in the next two the label is taken apart by let .. else, as document 01 names it for line heads.
fn label_note(code: &mut CodeGen, last: Option<Label>, o: Option<(Range, Label)>)
    ensures same { SameLoans code.old code.new }
    ensures value { (t : List ℕ) (base : ℕ) → mem_of code.new ≡ label_note (mem_r t) t base (label_word last) (target_of o) (mem_of code.old) }
{
    let Some((r, l)) = o else {
        return;
    };
    let Some(m) = last else {
        return;
    };
    if l.0 <= m.0 {
        code.note(Class::LabelsNotRising, r)
    }
}

// A labelled line goes into work: the address before its records, and the first datum that it made. Returns how many there are.
fn mark_line(
    work: &mut [u32],
    n: usize,
    o: Option<(Range, Label)>,
    addr: Addr,
    first: Option<DatumIndex>,
) -> usize
    ensures { (work.new ≡ line_work (target_of o) addr.0 (as_word (datum_word first)) work.old n) × (result ≡ line_count (target_of o) work.old n) }
{
    let Some((_, l)) = o else {
        return n;
    };
    labels::marks::put_mark(work, n, l, addr, first)
}

fn last_label(last: Option<Label>, o: Option<(Range, Label)>) -> Option<Label>
    ensures { label_word result ≡ last_label (label_word last) (target_of o) }
{
    let Some((_, l)) = o else {
        return last;
    };
    Some(l)
}

// One line: its length, its label, its statements. A Source is made for each, since it says where the line begins in the text; work is
// lent beside code, since the rules' memory has none.
#[tactic(auto, unfolding(rules::specs::Program::compile_line))]
fn compile_line(
    sheet: &[u32],
    text: &[u16],
    code: &mut CodeGen,
    work: &mut [u32],
    c: Lines,
    line: u32,
) -> Lines
    ensures same { SameLoans code.old code.new }
    ensures value { CompiledLine sheet.now text.now line c result (mem_of code.old) (mem_of code.new) work.old work.new }
{
    let length = sheet::reader::line_length(sheet, c.at);
    let p = sheet::reader::label_place(sheet, c.at);
    let o = jumps::jump::target_at(sheet, p);
    let q = jumps::jump::behind_target(sheet, p);
    let src = Source {
        sheet,
        text,
        base: c.base,
    };
    let addr = code.current_addr();
    code.begin_line(line);
    label_note(code, c.last, o);
    let at = statements::stmt::compile_stmts(&src, code, q, DEPTH_LIMIT);
    let first = code.first_datum();
    let marks = mark_line(work, c.marks, o, addr, first);
    Lines {
        at,
        marks,
        last: last_label(c.last, o),
        base: rules::name::text_place(c.base, length),
    }
}

// All lines, in order; returns how many labelled ones are in the work, which should be zeros before, with three words for each line
// and one more. The count goes on beside work: of a struct each contract would also say that its words are still the lent ones.
pub fn compile_prog(sheet: &[u32], text: &[u16], code: &mut CodeGen, work: &mut [u32]) -> usize
    ensures same { SameLoans code.old code.new }
    ensures value { Programmed sheet.now text.now (mem_of code.old) (mem_of code.new) work.old work.new result }
{
    let count = recorder::word::payload_at(sheet, 0);
    let at = recorder::word::behind(sheet, 0);
    let mut c = Lines {
        at,
        marks: 0,
        last: None,
        base: 0,
    };
    for line in 0..count {
        c = compile_line(sheet, text, code, work, c, line);
    }
    c.marks
}

// DATA.
ghost use Rattle.std.specs.Prelude.{◌≡◌, List, ℕ};
ghost use Rattle.recorder.specs.declared.word.Range.{Range};
ghost use Rattle.recorder.specs.Mem.{mem_r};
ghost use Rattle.recorder.specs.CodeGen.{mem_of, SameLoans};
ghost use Rattle.sheet.specs.declared.form.Shape.TheVariants.{Data};
ghost use Rattle.rules.specs.Stmt.{datum_start, datum_length, datum_node};
ghost use Rattle.expressions.specs.Body.{Body};
ghost use Rattle.declarations.specs.Parts.{datum_of, DataDone};

use nodes::source::Source;
use recorder::call::Class;
use recorder::codegen::CodeGen;
use recorder::number::TEXT_LIMIT;
use recorder::word::Range;

// A datum of the sheet. `quoted` is a word of it and goes into the book as it stands, so it is no bool.
#[derive(Clone, Copy)]
struct Datum {
    range: Range,
    quoted: u32,
}

impl Datum {
    fn start(self, base: u32) -> u32
        ensures { result ≡ datum_start base (datum_of self) }
    {
        if self.quoted == 1 {
            nodes::node::quoted_start(base, self.range)
        } else {
            rules::name::text_place(base, u32::from(self.range.start))
        }
    }

    fn length(self, src: &Source) -> u32
        ensures { result ≡ datum_length src.now.text.now src.now.base (datum_of self) }
    {
        if self.quoted == 1 {
            nodes::node::quoted_length(src, self.range)
        } else {
            rules::name::units(self.range)
        }
    }
}

// A datum, and a note where it is above 255.
#[tactic(auto, unfolding(rules::specs::Stmt::datum_node))]
fn datum_node(src: &Source, code: &mut CodeGen, d: Datum)
    ensures same { SameLoans code.old code.new }
    ensures value { mem_of code.new ≡ datum_node (mem_r src.now.text.now) src.now.text.now src.now.base (datum_of d) (mem_of code.old) }
{
    let n = d.length(src);
    let a = d.start(src.base);
    code.emit_datum(a, n, d.quoted);
    if TEXT_LIMIT < n {
        code.note(Class::TextTooLong, d.range)
    }
}

// So many data. Behind the sheet's end each word reads as 0 and the place stays, where a slice's iterator would end.
// accept_fields' lists share a loop over a closure. Here the closure would write code, of which a contract says only that it was called.
#[tactic(auto, unfolding(sheet::specs::Skip::skip_repeat, sheet::specs::Tree::items_at, rules::specs::Stmt::compile_data), using(expressions::proofs::Lists::turns))]
fn data_each(src: &Source, code: &mut CodeGen, at: usize, n: u32) -> usize
    ensures same { SameLoans code.old code.new }
    ensures value { DataDone src.now.sheet.now src.now.text.now src.now.base at n (mem_of code.old) (mem_of code.new) result }
{
    let mut p = at;
    for _ in 0..n {
        let r = recorder::word::range_at(src.sheet, p);
        let q = recorder::word::behind(src.sheet, p);
        let quoted = recorder::word::payload_at(src.sheet, q);
        datum_node(src, code, Datum { range: r, quoted });
        p = recorder::word::behind(src.sheet, q);
    }
    p
}

#[tactic(auto, unfolding(sheet::specs::Tree::stmt_node, rules::specs::Stmt::compile_stmt, sheet::specs::Skip::skip_fields, sheet::specs::Skip::skip_field, sheet::specs::Skip::skip_times, sheet::specs::Skip::skip_pair, sheet::specs::Skip::skip_item, sheet::specs::Skip::skip_list))]
pub fn compile_data(src: &Source, code: &mut CodeGen, at: usize) -> usize
    ensures same { SameLoans code.old code.new }
    ensures value { (left k : ℕ) (r : Range) → Body src.now.sheet.now src.now.text.now src.now.base left Data k r at (mem_of code.old) (mem_of code.new) result }
{
    let c = expressions::expr::read_payload(src.sheet, at);
    data_each(src, code, c.at, c.value)
}

// FIELD: its file number stands first in the sheet and is compiled last.
ghost use Rattle.std.specs.Prelude.{ℕ};
ghost use Rattle.recorder.specs.CodeGen.{mem_of, SameLoans};
ghost use Rattle.sheet.specs.declared.form.Shape.TheVariants.{Field};
ghost use Rattle.expressions.specs.Body.{Body};
ghost use Rattle.declarations.specs.Parts.{FieldsDone};

use nodes::source::Source;
use recorder::call::Call;
use recorder::codegen::CodeGen;
use recorder::word::Range;
use rules::types::Type;

// So many fields: a length and a text's place each.
// accept_fields' lists share a loop over a closure. Here the closure would write code, of which a contract says only that it was called.
#[tactic(auto, unfolding(sheet::specs::Skip::skip_repeat, sheet::specs::Tree::items_at, rules::specs::Stmt::compile_fields), using(expressions::proofs::Lists::turns))]
fn field_each(src: &Source, code: &mut CodeGen, at: usize, n: u32, left: usize) -> usize
    ensures same { SameLoans code.old code.new }
    ensures value { FieldsDone src.now.sheet.now src.now.text.now src.now.base left at n (mem_of code.old) (mem_of code.new) result }
{
    let mut p = at;
    for _ in 0..n {
        let x = expressions::expr::compile_typed(src, code, p, left, Type::Real);
        let y = expressions::expr::place_typed(src, code, x, left, Type::String);
        p = y;
    }
    p
}

pub fn compile_field(src: &Source, code: &mut CodeGen, at: usize, left: usize, r: Range) -> usize
    ensures same { SameLoans code.old code.new }
    ensures value { (k : ℕ) → Body src.now.sheet.now src.now.text.now src.now.base left Field k r at (mem_of code.old) (mem_of code.new) result }
{
    let p = walk::stmt::skip_expr(src.sheet, at, left);
    let c = expressions::expr::read_payload(src.sheet, p);
    let x = field_each(src, code, c.at, c.value, left);
    expressions::expr::compile_typed(src, code, at, left, Type::Real);
    code.emit(r, Call::Field(c.value));
    x
}

// compile_write of compiler.rs.
ghost use Rattle.std.specs.Prelude.{◌≡◌, List, ℕ, eqb};
ghost use Rattle.recorder.specs.Word.{either, flag_of};
ghost use Rattle.recorder.specs.Mem.{mem_r};
ghost use Rattle.recorder.specs.CodeGen.{mem_of, SameLoans};
ghost use Rattle.sheet.specs.Tree.{WriteElement, expr_range};
ghost use Rattle.rules.specs.Stmt.{write_value};
ghost use Rattle.expressions.specs.Body.{Body};
ghost use Rattle.prints.specs.Parts.{WritesDone};

use crate::prints::emit_by;
use nodes::source::Source;
use recorder::call::{Call, Class};
use recorder::codegen::CodeGen;
use recorder::word::Range;
use rules::types::Type;
use sheet::form::Shape;

// Whether a value is written: the last one, and one with a comma behind it. `more` counts it and those behind it.
fn is_kept(more: u32, comma: bool) -> bool
    ensures { result ≡ either (eqb more 1) comma }
{
    more == 1 || comma
}

// What follows a value's expression: call 44 or 45, or a note and call 46 or 47.
fn write_value(code: &mut CodeGen, file: bool, more: u32, comma: bool, r: Range, ty: Type)
    ensures same { SameLoans code.old code.new }
    ensures value { (t : List ℕ) (base : ℕ) (d : WriteElement) → r ≡ expr_range d.datum → comma ≡ eqb d.comma 1 → mem_of code.new ≡ write_value (mem_r t) t base (flag_of file) d (eqb more 1) ty (mem_of code.old) }
{
    let end = more == 1;
    if is_kept(more, comma) {
        emit_by(
            code,
            r,
            ty,
            Call::WriteNum(file, end),
            Call::WriteStr(file, end),
        )
    } else {
        code.note(Class::ValueDropped, r);
        emit_by(code, r, ty, Call::PopNum, Call::PopStr)
    }
}

// So many values from a place on, each with its flag. accept_fields' lists share a loop over a closure. Here the closure would write code,
// of which a contract says only that it was called.
#[tactic(auto, unfolding(sheet::specs::Skip::skip_repeat, sheet::specs::Tree::items_at, rules::specs::Stmt::write_each), using(expressions::proofs::Lists::turns, expressions::proofs::ExprLaws::range_of_lem, crate::proofs::WriteLaws::last_of))]
fn write_each(src: &Source, code: &mut CodeGen, at: usize, left: usize, n: u32, file: bool) -> usize
    ensures same { SameLoans code.old code.new }
    ensures value { WritesDone src.now.sheet.now src.now.text.now src.now.base left (flag_of file) n at (mem_of code.old) (mem_of code.new) result }
{
    let mut p = at;
    for i in 0..n {
        let x = expressions::expr::compile_expr(src, code, p, left);
        let c = expressions::expr::read_payload(src.sheet, x.at);
        let r = expressions::expr::node_range(src.sheet, p);
        write_value(code, file, n - i, c.value == 1, r, x.ty);
        p = c.at;
    }
    p
}

#[tactic(auto, unfolding(sheet::specs::Tree::stmt_node, rules::specs::Stmt::compile_stmt, sheet::specs::Skip::skip_fields, sheet::specs::Skip::skip_field, sheet::specs::Skip::skip_times, sheet::specs::Skip::skip_pair, sheet::specs::Skip::skip_item, sheet::specs::Skip::skip_list))]
pub fn compile_write(src: &Source, code: &mut CodeGen, at: usize, left: usize, r: Range) -> usize
    ensures same { SameLoans code.old code.new }
    ensures value { (k : ℕ) → Body src.now.sheet.now src.now.text.now src.now.base left Shape.Write k r at (mem_of code.old) (mem_of code.new) result }
{
    if sheet::leaf::is_absent(src.sheet, at) {
        let q = recorder::word::behind(src.sheet, at);
        let c = expressions::expr::read_payload(src.sheet, q);
        let x = write_each(src, code, c.at, left, c.value, false);
        code.emit(r, Call::Flush);
        return x;
    }
    let f = expressions::expr::compile_typed(src, code, at, left, Type::Real);
    let c = expressions::expr::read_payload(src.sheet, f);
    write_each(src, code, c.at, left, c.value, true)
}

// LOCATE: a row and a column, each of which may be absent.
ghost use Rattle.std.specs.Prelude.{ℕ};
ghost use Rattle.recorder.specs.CodeGen.{mem_of, SameLoans};
ghost use Rattle.expressions.specs.Body.{Body};
ghost use Rattle.operations.specs.Parts.{Located};

use nodes::source::Source;
use recorder::call::Call;
use recorder::codegen::CodeGen;
use recorder::word::Range;
use rules::types::Type;
use sheet::form::Shape;

// The column or the row, which may be absent.
#[tactic(auto, using(expressions::proofs::ExprLaws::range_of_lem))]
fn locate_part(src: &Source, code: &mut CodeGen, at: usize, left: usize, column: bool) -> usize
    ensures same { SameLoans code.old code.new }
    ensures value { Located src.now.sheet.now src.now.text.now src.now.base left column at (mem_of code.old) (mem_of code.new) result }
{
    if sheet::leaf::is_absent(src.sheet, at) {
        return recorder::word::behind(src.sheet, at);
    }
    let x = expressions::expr::compile_typed(src, code, at, left, Type::Real);
    let r = expressions::expr::node_range(src.sheet, at);
    if column {
        code.emit(r, Call::SetColumn);
    } else {
        code.emit(r, Call::SetRow);
    }
    x
}

#[tactic(auto, unfolding(sheet::specs::Tree::stmt_node, rules::specs::Stmt::compile_stmt, rules::specs::Stmt::compile_locate, sheet::specs::Skip::skip_fields, sheet::specs::Skip::skip_field, sheet::specs::Skip::skip_times, sheet::specs::Skip::skip_pair, sheet::specs::Skip::skip_item))]
pub fn compile_locate(src: &Source, code: &mut CodeGen, at: usize, left: usize, r: Range) -> usize
    ensures same { SameLoans code.old code.new }
    ensures value { (k : ℕ) → Body src.now.sheet.now src.now.text.now src.now.base left Shape.Locate k r at (mem_of code.old) (mem_of code.new) result }
{
    let x = locate_part(src, code, at, left, false);
    locate_part(src, code, x, left, true)
}

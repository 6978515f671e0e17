// WHILE; its end is set when the list is closed up.
ghost use Rattle.std.specs.Prelude.{ℕ};
ghost use Rattle.recorder.specs.CodeGen.{mem_of, SameLoans};
ghost use Rattle.expressions.specs.Body.{Body};

use nodes::source::Source;
use recorder::call::Call;
use recorder::codegen::CodeGen;
use recorder::word::Range;
use rules::types::Type;
use sheet::form::Shape;

// The condition is run again at each turn, so the loop's start is before it.
#[tactic(auto, unfolding(sheet::specs::Tree::stmt_node, rules::specs::Stmt::compile_stmt, rules::specs::Stmt::compile_while, sheet::specs::Skip::skip_fields, sheet::specs::Skip::skip_field, sheet::specs::Skip::skip_times, sheet::specs::Skip::skip_pair, sheet::specs::Skip::skip_item))]
pub fn compile_while(src: &Source, code: &mut CodeGen, at: usize, left: usize, r: Range) -> usize
    ensures same { SameLoans code.old code.new }
    ensures value { (k : ℕ) → Body src.now.sheet.now src.now.text.now src.now.base left Shape.While k r at (mem_of code.old) (mem_of code.new) result }
{
    let start = code.current_addr();
    let x = expressions::expr::compile_typed(src, code, at, left, Type::Real);
    code.emit(r, Call::While(start.0));
    x
}

// The draw statements: compile_draw_stmt of compiler.rs.
ghost use Rattle.std.specs.Prelude.{◌≡◌, List, ℕ};
ghost use Rattle.recorder.specs.Mem.{mem_r};
ghost use Rattle.recorder.specs.CodeGen.{mem_of, SameLoans};
ghost use Rattle.sheet.specs.Args.{args_at};
ghost use Rattle.rules.specs.Stmt.{draw_node};
ghost use Rattle.expressions.specs.Body.{Body};

use nodes::source::Source;
use recorder::call::{Call, Class};
use recorder::codegen::CodeGen;
use recorder::word::Range;
use rules::tables::Wants;
use sheet::form::{Shape, Sort};

// Too few arguments, too many, or the call.
#[tactic(auto, unfolding(rules::specs::Stmt::draw_node), using(expressions::proofs::ExprLaws::how_many_lem))]
fn draw_node(src: &Source, code: &mut CodeGen, at: usize, n: u32, left: usize, k: u32, r: Range)
    ensures same { SameLoans code.old code.new }
    ensures value { (t : List ℕ) (base : ℕ) → mem_of code.new ≡ draw_node (mem_r t) t base k r (args_at src.now.sheet.now left n at) (mem_of code.old) }
{
    let arity = rules::tables::draw_arity(k);
    if n < arity.min {
        code.note(Class::TooFewArguments, r);
        return;
    }
    if arity.max < n {
        expressions::surplus::surplus_notes(src, code, at, n, arity.max, left);
        return;
    }
    code.emit(r, Call::Op(k, n))
}

#[tactic(auto, unfolding(sheet::specs::Tree::stmt_node, rules::specs::Stmt::compile_stmt, sheet::specs::Skip::skip_fields, sheet::specs::Skip::skip_field, sheet::specs::Skip::skip_times, sheet::specs::Skip::skip_pair, sheet::specs::Skip::skip_item, sheet::specs::Skip::skip_list))]
pub fn compile_draw_stmt(
    src: &Source,
    code: &mut CodeGen,
    at: usize,
    left: usize,
    k: u32,
    r: Range,
) -> usize
    ensures same { SameLoans code.old code.new }
    ensures value { Body src.now.sheet.now src.now.text.now src.now.base left Shape.Draw k r at (mem_of code.old) (mem_of code.new) result }
{
    let c = expressions::expr::read_payload(src.sheet, at);
    let x = expressions::expr::compile_args(src, code, c.at, c.value, Wants::Draw(k), left);
    draw_node(src, code, c.at, c.value, left, k, r);
    x
}

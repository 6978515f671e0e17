// Statements that store: LET, SWAP and READ.
ghost use Rattle.std.specs.Prelude.{◌≡◌, List, ℕ};
ghost use Rattle.recorder.specs.Calls.{kinds_differ, error_note};
ghost use Rattle.recorder.specs.Word.{pick};
ghost use Rattle.recorder.specs.Mem.{mem_r, note};
ghost use Rattle.recorder.specs.CodeGen.{mem_of, SameLoans};
ghost use Rattle.rules.specs.Stmt.{assign_call, assign_node};
ghost use Rattle.expressions.specs.Body.{Body};
ghost use Rattle.places.specs.Parts.{ReadEach};

use nodes::source::Source;
use recorder::call::{Call, Class};
use recorder::codegen::CodeGen;
use recorder::word::Range;
use rules::types::Type;
use sheet::form::Shape;

// SWAP's number in StmtKind.
const SWAP: u32 = 58;

// A note of class 4 where two kinds do not fit.
fn fits_note(code: &mut CodeGen, r: Range, fits: bool)
    ensures same { SameLoans code.old code.new }
    ensures value { mem_of code.new ≡ pick fits (mem_of code.old) (note (mem_of code.old) kinds_differ r error_note) }
{
    if !fits {
        code.note(Class::KindsDiffer, r)
    }
}

fn assign_call(code: &mut CodeGen, r: Range, x: Type)
    ensures same { SameLoans code.old code.new }
    ensures value { (t : List ℕ) (base : ℕ) → mem_of code.new ≡ assign_call (mem_r t) t base x r (mem_of code.old) }
{
    match x {
        Type::Integer => code.emit(r, Call::AssignInt),
        Type::Real => code.emit(r, Call::AssignReal),
        Type::String => code.emit(r, Call::AssignStr),
        Type::Error => {}
    }
}

// LET behind its two sides.
fn assign_node(code: &mut CodeGen, r: Range, x: Type, y: Type)
    ensures same { SameLoans code.old code.new }
    ensures value { (t : List ℕ) (base : ℕ) → mem_of code.new ≡ assign_node (mem_r t) t base r x y (mem_of code.old) }
{
    let fits = x.matches(y);
    fits_note(code, r, fits);
    assign_call(code, r, x)
}

#[tactic(auto, unfolding(sheet::specs::Tree::stmt_node, rules::specs::Stmt::compile_stmt, sheet::specs::Skip::skip_fields, sheet::specs::Skip::skip_field, sheet::specs::Skip::skip_times, sheet::specs::Skip::skip_pair, sheet::specs::Skip::skip_item, rules::specs::Stmt::compile_let), using(expressions::proofs::Lists::place_same))]
pub fn compile_let(src: &Source, code: &mut CodeGen, at: usize, left: usize, r: Range) -> usize
    ensures same { SameLoans code.old code.new }
    ensures value { (k : ℕ) → Body src.now.sheet.now src.now.text.now src.now.base left Shape.Let k r at (mem_of code.old) (mem_of code.new) result }
{
    let x = expressions::expr::compile_lvalue(src, code, at, left);
    let xt = x.ty;
    let y = expressions::expr::compile_expr(src, code, x.at, left);
    let yt = y.ty;
    assign_node(code, r, xt, yt);
    y.at
}

#[tactic(auto, unfolding(sheet::specs::Tree::stmt_node, rules::specs::Stmt::compile_stmt, sheet::specs::Skip::skip_fields, sheet::specs::Skip::skip_field, sheet::specs::Skip::skip_times, sheet::specs::Skip::skip_pair, sheet::specs::Skip::skip_item, rules::specs::Stmt::compile_swap), using(expressions::proofs::Lists::place_same))]
pub fn compile_swap(src: &Source, code: &mut CodeGen, at: usize, left: usize, r: Range) -> usize
    ensures same { SameLoans code.old code.new }
    ensures value { (k : ℕ) → Body src.now.sheet.now src.now.text.now src.now.base left Shape.Swap k r at (mem_of code.old) (mem_of code.new) result }
{
    let x = expressions::expr::compile_lvalue(src, code, at, left);
    let xt = x.ty;
    let y = expressions::expr::compile_lvalue(src, code, x.at, left);
    let yt = y.ty;
    let fits = xt.exact_matches(yt);
    fits_note(code, r, fits);
    code.emit(r, Call::Op(SWAP, 2));
    y.at
}

// So many places, each with the record that reads it. accept_fields' lists share a loop over a closure. Here the closure would write code,
// of which a contract says only that it was called.
#[tactic(auto, unfolding(sheet::specs::Skip::skip_repeat, sheet::specs::Tree::exprs_at, rules::specs::Stmt::compile_read), using(expressions::proofs::Lists::turns, expressions::proofs::Lists::place_same, expressions::proofs::ExprLaws::range_of_lem))]
fn read_each(src: &Source, code: &mut CodeGen, at: usize, n: u32, left: usize) -> usize
    ensures same { SameLoans code.old code.new }
    ensures value { ReadEach src.now.sheet.now src.now.text.now src.now.base left at n (mem_of code.old) (mem_of code.new) result }
{
    let mut p = at;
    for _ in 0..n {
        let x = expressions::expr::compile_lvalue(src, code, p, left);
        let r = expressions::expr::node_range(src.sheet, p);
        code.emit(r, Call::Read);
        p = x.at;
    }
    p
}

#[tactic(auto, unfolding(sheet::specs::Tree::stmt_node, rules::specs::Stmt::compile_stmt, sheet::specs::Skip::skip_fields, sheet::specs::Skip::skip_field, sheet::specs::Skip::skip_times, sheet::specs::Skip::skip_pair, sheet::specs::Skip::skip_item, rules::specs::Stmt::compile_read, sheet::specs::Skip::skip_list))]
pub fn compile_read(src: &Source, code: &mut CodeGen, at: usize, left: usize, r: Range) -> usize
    ensures same { SameLoans code.old code.new }
    ensures value { (k : ℕ) → Body src.now.sheet.now src.now.text.now src.now.base left Shape.Read k r at (mem_of code.old) (mem_of code.new) result }
{
    let c = expressions::expr::read_payload(src.sheet, at);
    read_each(src, code, c.at, c.value, left)
}

// compile_stmt and compile_if of compiler.rs: an IF, its branches and their statements call each other; the remaining depth
// falls.
ghost use Rattle.std.specs.Prelude.{◌≡◌, List, ℕ};
ghost use Rattle.recorder.specs.Mem.{mem_r};
ghost use Rattle.recorder.specs.CodeGen.{mem_of, SameLoans};
ghost use Rattle.rules.specs.Stmt.{else_jump, end_here};
ghost use Rattle.statements.specs.Stmt.{IfHead, IfBody, CompiledStmt, CompiledStmts};

use nodes::source::Source;
use recorder::call::Call;
use recorder::codegen::CodeGen;
use recorder::label::Addr;
use recorder::word::Range;
use rules::types::Type;
use sheet::form::Shape;

// What an IF's condition and jump leave besides the state: the place behind the condition, the jump's address.
#[derive(Clone, Copy)]
struct Branch {
    at: usize,
    jump: Addr,
}

// The condition, and the jump on zero.
fn if_head(src: &Source, code: &mut CodeGen, at: usize, left: usize, r: Range) -> Branch
    ensures same { SameLoans code.old code.new }
    ensures value { IfHead src.now.sheet.now src.now.text.now src.now.base left r at (mem_of code.old) (mem_of code.new) result.at result.jump.0 }
{
    let x = expressions::expr::compile_typed(src, code, at, left, Type::Real);
    let jump = code.current_addr();
    code.emit(r, Call::Jz);
    Branch { at: x, jump }
}

// The jump at an address goes to here.
fn end_here(code: &mut CodeGen, jump: Addr)
    ensures same { SameLoans code.old code.new }
    ensures value { (t : List ℕ) (base : ℕ) → mem_of code.new ≡ end_here (mem_r t) t base jump.0 (mem_of code.old) }
{
    let here = code.current_addr();
    code.patch_jump_addr(jump, here);
}

// The jump over the other branch, to which the jump on zero goes.
fn else_head(code: &mut CodeGen, jump: Addr, r: Range)
    ensures same { SameLoans code.old code.new }
    ensures value { (t : List ℕ) (base : ℕ) → mem_of code.new ≡ end_here (mem_r t) t base jump.0 (else_jump (mem_r t) t base r (mem_of code.old)) }
{
    code.emit(r, Call::Goto(None));
    end_here(code, jump);
}

#[cycle(stmt_cycle)]
fn compile_if(src: &Source, code: &mut CodeGen, at: usize, left: usize, r: Range) -> usize
    ensures same { SameLoans code.old code.new }
    ensures value { IfBody src.now.sheet.now src.now.text.now src.now.base left r at (mem_of code.old) (mem_of code.new) result }
{
    let h = if_head(src, code, at, left, r);
    let jump = h.jump;
    let p = compile_stmts(src, code, h.at, left);
    if sheet::leaf::is_absent(src.sheet, p) {
        end_here(code, jump);
        return recorder::word::behind(src.sheet, p);
    }
    let over = code.current_addr();
    else_head(code, jump, r);
    let y = compile_stmts(src, code, p, left);
    end_here(code, over);
    y
}

#[cycle(stmt_cycle)]
#[tactic(auto, unfolding(sheet::specs::Tree::stmt_at, sheet::specs::Tree::stmt_node, sheet::specs::Skip::skip_node, rules::specs::Stmt::compile_stmt), using(sheet::proofs::Shapes::fields_rule))]
pub fn compile_stmt(src: &Source, code: &mut CodeGen, at: usize, left: usize) -> usize
    ensures same { SameLoans code.old code.new }
    ensures value { CompiledStmt src.now.sheet.now src.now.text.now src.now.base left at (mem_of code.old) (mem_of code.new) result }
{
    let r = expressions::expr::node_range(src.sheet, at);
    if left == 0 {
        code.emit(r, Call::NoOp);
        return at;
    }
    let k = recorder::word::payload_at(src.sheet, at);
    let p = recorder::word::behind(src.sheet, recorder::word::behind(src.sheet, at));
    match walk::shape::shape_of(k) {
        Shape::If => compile_if(src, code, p, left - 1, r),
        s => {
            let rest = left - 1;
            crate::plain::compile_plain(src, code, p, rest, s, k, r)
        }
    }
}

// The counted statements at a place. accept_fields' lists share a loop over a closure. Here the closure would write code, of which a
// contract says only that it was called.
#[cycle(stmt_cycle)]
#[tactic(auto, unfolding(sheet::specs::Skip::skip_list, sheet::specs::Skip::skip_repeat, sheet::specs::Tree::stmts_at, rules::specs::Stmt::compile_stmts), using(expressions::proofs::Lists::turns))]
pub fn compile_stmts(src: &Source, code: &mut CodeGen, at: usize, left: usize) -> usize
    ensures same { SameLoans code.old code.new }
    ensures value { CompiledStmts src.now.sheet.now src.now.text.now src.now.base left at (mem_of code.old) (mem_of code.new) result }
{
    let c = expressions::expr::read_payload(src.sheet, at);
    let mut p = c.at;
    for _ in 0..c.value {
        p = compile_stmt(src, code, p, left);
    }
    p
}

// Statements of operands alone, with one record behind them; and SYSTEM, which makes a note. A statement's number k goes into its record
// as it stands in the sheet; what kind of statement it is, its Shape says.
#![tactic(auto, unfolding(sheet::specs::Tree::stmt_node, rules::specs::Stmt::compile_stmt, sheet::specs::Skip::skip_fields, sheet::specs::Skip::skip_field, sheet::specs::Skip::skip_times, sheet::specs::Skip::skip_pair, sheet::specs::Skip::skip_item), using(expressions::proofs::Lists::place_same))]

ghost use Rattle.std.specs.Prelude.{List, ℕ, ◌≤◌};
ghost use Rattle.recorder.specs.CodeGen.{mem_of, SameLoans};
ghost use Rattle.expressions.specs.Body.{Body};
ghost use Rattle.operations.specs.Parts.{shape_for};

use nodes::source::Source;
use recorder::call::{Call, Class};
use recorder::codegen::CodeGen;
use recorder::word::Range;
use rules::tables::Wants;
use rules::types::Type;
use sheet::form::Shape;

// Statements that do nothing, with the range of what they hold. This function, the next one and compile_run are two lines each, for its
// shape's rule: one over the call would have to say which call goes with which shape.
pub fn compile_rem(src: &Source, code: &mut CodeGen, at: usize, r: Range) -> usize
    ensures same { SameLoans code.old code.new }
    ensures value { (t : List ℕ) (base left k : ℕ) → Body src.now.sheet.now t base left Shape.Rem k r at (mem_of code.old) (mem_of code.new) result }
{
    code.emit(r, Call::NoOp);
    recorder::word::behind(src.sheet, at)
}

pub fn compile_no_op(code: &mut CodeGen, at: usize, r: Range) -> usize
    ensures same { SameLoans code.old code.new }
    ensures value { (s t : List ℕ) (base left k : ℕ) → Body s t base left Shape.NoOp k r at (mem_of code.old) (mem_of code.new) result }
{
    code.emit(r, Call::NoOp);
    at
}

pub fn compile_run(src: &Source, code: &mut CodeGen, at: usize, k: u32, r: Range) -> usize
    ensures same { SameLoans code.old code.new }
    ensures value { (t : List ℕ) (base left : ℕ) → Body src.now.sheet.now t base left Shape.Run k r at (mem_of code.old) (mem_of code.new) result }
{
    code.emit(r, Call::Op(k, 0));
    recorder::word::behind(src.sheet, at)
}

// SYSTEM is not supported.
pub fn compile_system(code: &mut CodeGen, at: usize, r: Range) -> usize
    ensures same { SameLoans code.old code.new }
    ensures value { (s t : List ℕ) (base left k : ℕ) → Body s t base left Shape.System k r at (mem_of code.old) (mem_of code.new) result }
{
    code.note(Class::NotAllowed, r);
    at
}

// Statements of so many operands, three at most.
pub fn compile_operands(
    src: &Source,
    code: &mut CodeGen,
    at: usize,
    left: usize,
    n: u32,
    k: u32,
    r: Range,
) -> usize
    ensures same { SameLoans code.old code.new }
    ensures value { n ≤ 3 → Body src.now.sheet.now src.now.text.now src.now.base left (shape_for n) k r at (mem_of code.old) (mem_of code.new) result }
{
    let x = expressions::expr::compile_args(src, code, at, n, Wants::Operands(k), left);
    code.emit(r, Call::Op(k, n));
    x
}

// LSET and RSET.
pub fn compile_set(
    src: &Source,
    code: &mut CodeGen,
    at: usize,
    left: usize,
    k: u32,
    r: Range,
) -> usize
    ensures same { SameLoans code.old code.new }
    ensures value { Body src.now.sheet.now src.now.text.now src.now.base left Shape.Set k r at (mem_of code.old) (mem_of code.new) result }
{
    let x = expressions::expr::place_typed(src, code, at, left, Type::String);
    let y = expressions::expr::compile_typed(src, code, x, left, Type::String);
    code.emit(r, Call::Op(k, 2));
    y
}

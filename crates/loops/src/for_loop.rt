// FOR and NEXT.
ghost use Rattle.std.specs.Prelude.{◌≡◌, List, ℕ, Option, is_some, unwrap_or};
ghost use Rattle.recorder.specs.declared.word.Range.{Range};
ghost use Rattle.recorder.specs.Calls.{name_of_wrong_kind, error_note};
ghost use Rattle.recorder.specs.Mem.{mem_r, note};
ghost use Rattle.recorder.specs.CodeGen.{mem_of, SameLoans};
ghost use Rattle.sheet.specs.declared.form.Shape.TheVariants.{For, Next};
ghost use Rattle.sheet.specs.Tree.{Opt, Expr};
ghost use Rattle.recorder.specs.Word.{pick, flag_of};
ghost use Rattle.rules.specs.declared.types.«Type».TheVariants.{Real};
ghost use Rattle.rules.specs.Types.{matches_type};
ghost use Rattle.rules.specs.Stmt.{for_node, step_flag, next_one, next_range};
ghost use Rattle.nodes.specs.Compiled.{opt_of};
ghost use Rattle.expressions.specs.Body.{Body};
ghost use Rattle.loops.specs.Parts.{Stepped, NextDone};

use nodes::source::Source;
use recorder::call::{Call, Class};
use recorder::codegen::CodeGen;
use recorder::word::Range;
use rules::types::Type;

// The place behind FOR's step, and whether it was there.
#[derive(Clone, Copy)]
struct Step {
    at: usize,
    flag: bool,
}

#[tactic(auto, unfolding(sheet::specs::Skip::skip_field, sheet::specs::Skip::skip_times, sheet::specs::Skip::skip_pair, sheet::specs::Skip::skip_item))]
fn compile_step(src: &Source, code: &mut CodeGen, at: usize, left: usize) -> Step
    ensures same { SameLoans code.old code.new }
    ensures value { Stepped src.now.sheet.now src.now.text.now src.now.base left at (mem_of code.old) (mem_of code.new) result.at result.flag }
{
    if sheet::leaf::is_absent(src.sheet, at) {
        Step {
            at: recorder::word::behind(src.sheet, at),
            flag: false,
        }
    } else {
        let x = expressions::expr::compile_typed(src, code, at, left, Type::Real);
        Step { at: x, flag: true }
    }
}

// FOR's record, where its counter has a name: call 23.
fn for_node(code: &mut CodeGen, counter: Option<u32>, r: Range, step: bool)
    ensures same { SameLoans code.old code.new }
    ensures value { (t : List ℕ) (base : ℕ) (o : Option Range) (e : Opt Expr) → is_some o ≡ is_some counter → flag_of step ≡ step_flag e → mem_of code.new ≡ for_node (mem_r t) t base (opt_of o) r (unwrap_or counter 0) e (mem_of code.old) }
{
    if let Some(n) = counter {
        code.emit(r, Call::For(n, step))
    }
}

pub fn compile_for(src: &Source, code: &mut CodeGen, at: usize, left: usize, r: Range) -> usize
    ensures same { SameLoans code.old code.new }
    ensures value { (k : ℕ) → Body src.now.sheet.now src.now.text.now src.now.base left For k r at (mem_of code.old) (mem_of code.new) result }
{
    let o = nodes::node::opt_range_at(src.sheet, at);
    let y = nodes::node::opt_real_sym(src, code, o);
    let p = recorder::word::behind(src.sheet, at);
    let a = expressions::expr::compile_typed(src, code, p, left, Type::Real);
    let b = expressions::expr::compile_typed(src, code, a, left, Type::Real);
    let c = compile_step(src, code, b, left);
    for_node(code, y, r, c.flag);
    c.at
}

// NEXT's note where its counter is no number: class 5.
fn next_note(code: &mut CodeGen, v: Range, ty: Type)
    ensures same { SameLoans code.old code.new }
    ensures value { mem_of code.new ≡ pick (matches_type ty Real) (mem_of code.old) (note (mem_of code.old) name_of_wrong_kind v error_note) }
{
    if !ty.matches(Type::Real) {
        code.note(Class::NameOfWrongKind, v)
    }
}

fn next_range(n: u32, r: Range, v: Range) -> Range
    ensures { result ≡ next_range n r v }
{
    if n == 1 { r } else { v }
}

// One of n names of NEXT: "24 emit_next (symbol plus 1, or 0)". The 1 is added here, where the symbol is below 2^24: in Call
// it might wrap, and a symbol would read as none.
fn next_one(src: &Source, code: &mut CodeGen, n: u32, r: Range, o: Option<Range>)
    ensures same { SameLoans code.old code.new }
    ensures value { mem_of code.new ≡ next_one (mem_r src.now.text.now) src.now.text.now src.now.base n r (opt_of o) (mem_of code.old) }
{
    if let Some(v) = o {
        let y = nodes::node::compile_sym(src, code, v);
        let ty = y.ty;
        next_note(code, v, ty);
        let w = next_range(n, r, v);
        code.emit(w, Call::Next(y.number + 1))
    }
}

// So many names of NEXT from a place on.
// accept_fields' lists share a loop over a closure. Here the closure would write code, of which a contract says only that it was called.
// So many on any sheet: behind its end each word reads as 0 and the place stays, where a slice's iterator would end.
#[tactic(auto, unfolding(sheet::specs::Skip::skip_repeat, sheet::specs::Tree::items_at, rules::specs::Stmt::next_each), using(expressions::proofs::Lists::turns))]
fn next_each(src: &Source, code: &mut CodeGen, at: usize, n: u32, r: Range) -> usize
    ensures same { SameLoans code.old code.new }
    ensures value { NextDone src.now.sheet.now src.now.text.now src.now.base at n r (mem_of code.old) (mem_of code.new) result }
{
    let mut p = at;
    for _ in 0..n {
        let o = nodes::node::opt_range_at(src.sheet, p);
        next_one(src, code, n, r, o);
        p = recorder::word::behind(src.sheet, p);
    }
    p
}

pub fn compile_next(src: &Source, code: &mut CodeGen, at: usize, r: Range) -> usize
    ensures same { SameLoans code.old code.new }
    ensures value { (left k : ℕ) → Body src.now.sheet.now src.now.text.now src.now.base left Next k r at (mem_of code.old) (mem_of code.new) result }
{
    let c = expressions::expr::read_payload(src.sheet, at);
    if c.value == 0 {
        code.emit(r, Call::Next(0));
        c.at
    } else {
        next_each(src, code, c.at, c.value, r)
    }
}

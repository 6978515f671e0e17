// INPUT: its source stands first in the sheet and is compiled last.
ghost use Rattle.std.specs.Prelude.{◌≡◌, List, ℕ, Bool, Option, is_some, unwrap_or};
ghost use Rattle.recorder.specs.declared.word.Range.{Range};
ghost use Rattle.recorder.specs.Word.{payload_at, range_at, next};
ghost use Rattle.recorder.specs.Mem.{mem_r};
ghost use Rattle.recorder.specs.CodeGen.{mem_of, SameLoans};
ghost use Rattle.sheet.specs.declared.form.Shape.TheVariants.{Input};
ghost use Rattle.sheet.specs.Tree.{Expr, Stmt, expr_range, expr_at, opt_at, source_of};
ghost use Rattle.rules.specs.Stmt.{is_ident, is_file, input_arg_by, fn_place, input_fn, fn_input, input_source};
ghost use Rattle.nodes.specs.Compiled.{named, opt_of};
ghost use Rattle.expressions.specs.Body.{Body};
ghost use Rattle.inputs.specs.Parts.{Taken, TakenAll};

use nodes::source::Source;
use recorder::call::{Call, Class};
use recorder::codegen::CodeGen;
use recorder::word::Range;
use rules::types::Type;
use sheet::form::{ExprKind, SourceKind};

// Whether the expression at a place is a variable. With no depth left an expression is an Error: prints' is_tab_spc and transfers' byte_of
// leave first on it, too, each by its own law.
#[tactic(auto, using(crate::proofs::InputLaws::ident_zero))]
fn is_ident(sheet: &[u32], at: usize, left: usize) -> bool
    ensures { result ≡ is_ident (expr_at sheet.now left at) }
{
    if left == 0 {
        return false;
    }
    matches!(
        ExprKind::of(recorder::word::payload_at(sheet, at)),
        ExprKind::Ident
    )
}

// A function's argument, which must be a variable: else class 12.
fn input_arg(src: &Source, code: &mut CodeGen, ident: bool, r: Range) -> Option<u32>
    ensures same { SameLoans code.old code.new }
    ensures told { ident ≡ is_some result }
    ensures value { (e : Expr) → expr_range e ≡ r → named (mem_of code.new) (unwrap_or result 0) ≡ input_arg_by (mem_r src.now.text.now) src.now.text.now src.now.base ident e (mem_of code.old) }
{
    if ident {
        Some(nodes::node::real_sym(src, code, r))
    } else {
        code.note(Class::NotAllowed, r);
        None
    }
}

// A function of a variable to store to: call 9.
fn fn_place(code: &mut CodeGen, f: Option<u32>, a: Option<u32>, r: Range)
    ensures same { SameLoans code.old code.new }
    ensures value { (t : List ℕ) (base : ℕ) (o : Option Range) (ident : Bool) → is_some o ≡ is_some f → ident ≡ is_some a → mem_of code.new ≡ fn_place (mem_r t) t base (opt_of o) ident r (unwrap_or f 0) (unwrap_or a 0) (mem_of code.old) }
{
    if let (Some(f), Some(a)) = (f, a) {
        code.emit(r, Call::FnLvalue(f, a))
    }
}

// From the keyboard: a function's name, its argument, and its place.
fn input_fn(src: &Source, code: &mut CodeGen, at: usize, left: usize, r: Range)
    ensures same { SameLoans code.old code.new }
    ensures value { mem_of code.new ≡ input_fn (mem_r src.now.text.now) src.now.text.now src.now.base r (opt_at src.now.sheet.now (range_at src.now.sheet.now) at) (expr_at src.now.sheet.now left (next src.now.sheet.now at)) (mem_of code.old) }
{
    let o = nodes::node::opt_range_at(src.sheet, at);
    let q = recorder::word::behind(src.sheet, at);
    let x = nodes::node::opt_real_sym(src, code, o);
    let i = is_ident(src.sheet, q, left);
    let ar = expressions::expr::node_range(src.sheet, q);
    let y = input_arg(src, code, i, ar);
    fn_place(code, x, y, r)
}

// From a file no function is read: class 12.
fn fn_input(src: &Source, code: &mut CodeGen, at: usize, left: usize, r: Range, file: bool)
    ensures same { SameLoans code.old code.new }
    ensures value { mem_of code.new ≡ fn_input (mem_r src.now.text.now) src.now.text.now src.now.base file r (opt_at src.now.sheet.now (range_at src.now.sheet.now) at) (expr_at src.now.sheet.now left (next src.now.sheet.now at)) (mem_of code.old) }
{
    if file {
        code.note(Class::NotAllowed, r)
    } else {
        input_fn(src, code, at, left, r)
    }
}

fn input_var(src: &Source, code: &mut CodeGen, at: usize, left: usize, file: bool) -> usize
    ensures same { SameLoans code.old code.new }
    ensures value { Taken src.now.sheet.now src.now.text.now src.now.base left at file (mem_of code.old) (mem_of code.new) result }
{
    if left == 0 {
        return at;
    }
    let k = recorder::word::payload_at(src.sheet, at);
    let r = expressions::expr::node_range(src.sheet, at);
    let p = recorder::word::behind(src.sheet, recorder::word::behind(src.sheet, at));
    match ExprKind::of(k) {
        ExprKind::UserFuncCall => {
            fn_input(src, code, p, left - 1, r, file);
            walk::stmt::skip_expr(src.sheet, at, left)
        }
        _ => {
            let x = expressions::expr::compile_lvalue(src, code, at, left);
            x.at
        }
    }
}

// So many places of INPUT from a place on.
// accept_fields' lists share a loop over a closure. Here the closure would write code, of which a contract says only that it was called.
#[tactic(auto, unfolding(sheet::specs::Skip::skip_repeat, sheet::specs::Tree::exprs_at, rules::specs::Stmt::input_vars), using(expressions::proofs::Lists::turns))]
fn input_vars(src: &Source, code: &mut CodeGen, at: usize, n: u32, left: usize, file: bool) -> usize
    ensures same { SameLoans code.old code.new }
    ensures value { TakenAll src.now.sheet.now src.now.text.now src.now.base left at n file (mem_of code.old) (mem_of code.new) result }
{
    let mut p = at;
    for _ in 0..n {
        p = input_var(src, code, p, left, file);
    }
    p
}

// The keyboard's call 32, behind a prompt that may be there, or a file's call 33 behind its number.
#[tactic(auto, using(crate::proofs::InputLaws::first, crate::proofs::InputLaws::second, crate::proofs::InputLaws::third))]
fn input_source(src: &Source, code: &mut CodeGen, at: usize, left: usize, r: Range, n: u32)
    ensures same { SameLoans code.old code.new }
    ensures value { (child : ℕ → Stmt) → mem_of code.new ≡ input_source (mem_r src.now.text.now) src.now.text.now src.now.base r n (source_of src.now.sheet.now left child (payload_at src.now.sheet.now at) (next src.now.sheet.now at)) (mem_of code.old) }
{
    let k = recorder::word::payload_at(src.sheet, at);
    let p = recorder::word::behind(src.sheet, at);
    match SourceKind::of(k) {
        SourceKind::Keyboard => code.emit(r, Call::KeyboardInput(false, n)),
        SourceKind::KeyboardWithPrompt => {
            let pr = recorder::word::range_at(src.sheet, p);
            nodes::node::text_node(src, code, pr);
            code.emit(r, Call::KeyboardInput(true, n))
        }
        SourceKind::File => {
            expressions::expr::compile_typed(src, code, p, left, Type::Real);
            code.emit(r, Call::FileInput(n))
        }
    }
}

// Whether the source is a file.
#[tactic(auto, using(crate::proofs::InputLaws::third, crate::proofs::InputLaws::no_file))]
fn is_file(sheet: &[u32], at: usize) -> bool
    ensures { (left : ℕ) (child : ℕ → Stmt) → result ≡ is_file (source_of sheet.now left child (payload_at sheet.now at) (next sheet.now at)) }
{
    let kind = SourceKind::of(recorder::word::payload_at(sheet, at));
    matches!(kind, SourceKind::File)
}

// Its variables stand behind its source and are compiled before it.
pub fn compile_input(src: &Source, code: &mut CodeGen, at: usize, left: usize, r: Range) -> usize
    ensures same { SameLoans code.old code.new }
    ensures value { (k : ℕ) → Body src.now.sheet.now src.now.text.now src.now.base left Input k r at (mem_of code.old) (mem_of code.new) result }
{
    let q = walk::stmt::skip_source(src.sheet, left, at);
    let file = is_file(src.sheet, at);
    let c = expressions::expr::read_payload(src.sheet, q);
    let x = input_vars(src, code, c.at, c.value, left, file);
    input_source(src, code, at, left, r, c.value);
    x
}

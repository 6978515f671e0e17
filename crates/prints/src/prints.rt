// compile_print of compiler.rs.
ghost use Rattle.std.specs.Prelude.{◌≡◌, true, false, List, ℕ, eqb};
ghost use Rattle.recorder.specs.Word.{pick, both, payload_at};
ghost use Rattle.recorder.specs.Mem.{mem_r};
ghost use Rattle.recorder.specs.CodeGen.{mem_of, SameLoans, emit};
ghost use Rattle.sheet.specs.Tree.{expr_at};
ghost use Rattle.rules.specs.declared.types.«Type».TheVariants.{Real};
ghost use Rattle.rules.specs.Types.{matches_type};
ghost use Rattle.rules.specs.Stmt.{is_tab_spc, blank_between};
ghost use Rattle.expressions.specs.Body.{Body};
ghost use Rattle.prints.specs.Parts.{Tabbed, Valued, OnePrinted, Printed, tab_emit, behind_call, blank_line};

use nodes::source::Source;
use recorder::call::Call;
use recorder::codegen::CodeGen;
use recorder::number::{LEAST_MANTISSA, ONE};
use recorder::word::Range;
use rules::tables::{SPC, Wants};
use rules::types::Type;
use sheet::form::{ElementKind, ExprKind, Shape};

// Whether the expression at a place is TAB or SPC itself.
#[tactic(auto, using(crate::proofs::PrintLaws::tab_zero))]
fn is_tab_spc(sheet: &[u32], at: usize, left: usize) -> bool
    ensures { result ≡ is_tab_spc (expr_at sheet.now left at) }
{
    if left == 0 {
        return false;
    }
    match ExprKind::of(recorder::word::payload_at(sheet, at)) {
        ExprKind::SysFuncCall => {
            let p = recorder::word::behind(sheet, recorder::word::behind(sheet, at));
            let k = recorder::word::payload_at(sheet, recorder::word::behind(sheet, p));
            rules::tables::is_tab_or_spc(k)
        }
        _ => false,
    }
}

// One call for a number, the other for a text.
#[inline(always)]
pub(crate) fn emit_by(code: &mut CodeGen, r: Range, ty: Type, number: Call, text: Call)
    ensures same { SameLoans code.old code.new }
    ensures value { mem_of code.new ≡ pick (matches_type ty Real) (emit (mem_of code.old) r number) (emit (mem_of code.old) r text) }
{
    if ty.matches(Type::Real) {
        code.emit(r, number)
    } else {
        code.emit(r, text)
    }
}

// Call 40 or 41.
fn tab_emit(code: &mut CodeGen, r: Range, k: u32)
    ensures same { SameLoans code.old code.new }
    ensures value { (t : List ℕ) → mem_of code.new ≡ tab_emit (mem_r t) r k (mem_of code.old) }
{
    if k == SPC {
        code.emit(r, Call::PrintSpc)
    } else {
        code.emit(r, Call::PrintTab)
    }
}

// One blank: the number one, and SPC.
fn blank_between(code: &mut CodeGen, r: Range)
    ensures same { SameLoans code.old code.new }
    ensures value { (t : List ℕ) (base : ℕ) → mem_of code.new ≡ blank_between (mem_r t) t base r (mem_of code.old) }
{
    code.emit(r, Call::Number(ONE, LEAST_MANTISSA));
    code.emit(r, Call::PrintSpc)
}

// Whether a blank follows: the next element is an expression, and this one is not TAB or SPC.
#[tactic(auto, using(crate::proofs::PrintLaws::value_yes, crate::proofs::PrintLaws::value_no))]
fn wants_blank(sheet: &[u32], at: usize, tabbed: bool) -> bool
    ensures { result ≡ both (eqb (payload_at sheet.now at) 0) (pick tabbed false true) }
{
    !tabbed
        && matches!(
            ElementKind::of(recorder::word::payload_at(sheet, at)),
            ElementKind::Expr
        )
}

// What follows an expression: `more` counts its element and those behind it, the next of which is at the place. `more` changes with each
// element, r is the statement's: one struct would be made anew for each.
fn behind_value(
    src: &Source,
    code: &mut CodeGen,
    at: usize,
    more: u32,
    tabbed: bool,
    er: Range,
    r: Range,
)
    ensures same { SameLoans code.old code.new }
    ensures value { (t : List ℕ) → mem_of code.new ≡ behind_call (mem_r t) tabbed r er more (eqb (payload_at src.now.sheet.now at) 0) (mem_of code.old) }
{
    if more < 2 {
        code.emit(r, Call::Newline)
    } else if wants_blank(src.sheet, at, tabbed) {
        blank_between(code, er)
    }
}

// TAB or SPC, from the function's range on.
fn tab_call(src: &Source, code: &mut CodeGen, at: usize, left: usize, r: Range) -> usize
    ensures same { SameLoans code.old code.new }
    ensures value { Tabbed src.now.sheet.now src.now.text.now src.now.base left r at (mem_of code.old) (mem_of code.new) result }
{
    let q = recorder::word::behind(src.sheet, at);
    let f = expressions::expr::read_payload(src.sheet, q);
    let c = expressions::expr::read_payload(src.sheet, f.at);
    expressions::surplus::surplus_notes(src, code, c.at, c.value, 1, left);
    let x = expressions::expr::compile_args(src, code, c.at, c.value, Wants::Func(f.value), left);
    tab_emit(code, r, f.value);
    x
}

// An expression as an element: `more` counts it and the elements behind it.
#[tactic(auto, using(crate::proofs::PrintLaws::tab_deep))]
fn print_value(
    src: &Source,
    code: &mut CodeGen,
    at: usize,
    left: usize,
    more: u32,
    r: Range,
) -> usize
    ensures same { SameLoans code.old code.new }
    ensures value { Valued src.now.sheet.now src.now.text.now src.now.base left more r at (mem_of code.old) (mem_of code.new) result }
{
    let er = expressions::expr::node_range(src.sheet, at);
    if is_tab_spc(src.sheet, at, left) {
        let p = recorder::word::behind(src.sheet, recorder::word::behind(src.sheet, at));
        let x = tab_call(src, code, p, left - 1, er);
        behind_value(src, code, x, more, true, er, r);
        x
    } else {
        let x = expressions::expr::compile_expr(src, code, at, left);
        emit_by(code, er, x.ty, Call::PrintNum, Call::PrintStr);
        behind_value(src, code, x.at, more, false, er, r);
        x.at
    }
}

// One element: `more` counts it and those behind it.
#[tactic(auto, using(crate::proofs::PrintLaws::first, crate::proofs::PrintLaws::second, crate::proofs::PrintLaws::third))]
fn print_one(src: &Source, code: &mut CodeGen, at: usize, left: usize, more: u32, r: Range) -> usize
    ensures same { SameLoans code.old code.new }
    ensures value { OnePrinted src.now.sheet.now src.now.text.now src.now.base left more r at (mem_of code.old) (mem_of code.new) result }
{
    let k = recorder::word::payload_at(src.sheet, at);
    let q = recorder::word::behind(src.sheet, at);
    let p = recorder::word::behind(src.sheet, q);
    match ElementKind::of(k) {
        ElementKind::Expr => print_value(src, code, q, left, more, r),
        ElementKind::Comma => {
            let er = recorder::word::range_at(src.sheet, q);
            code.emit(er, Call::Newline);
            p
        }
        ElementKind::Semicolon => p,
    }
}

// So many elements from a place on. accept_fields' lists share a loop over a closure. Here the closure would write code, of which a
// contract says only that it was called.
#[tactic(auto, unfolding(sheet::specs::Skip::skip_repeat, sheet::specs::Tree::items_at, rules::specs::Stmt::print_each), using(expressions::proofs::Lists::turns))]
fn print_each(src: &Source, code: &mut CodeGen, at: usize, left: usize, n: u32, r: Range) -> usize
    ensures same { SameLoans code.old code.new }
    ensures value { Printed src.now.sheet.now src.now.text.now src.now.base left n r at (mem_of code.old) (mem_of code.new) result }
{
    let mut p = at;
    for i in 0..n {
        p = print_one(src, code, p, left, n - i, r);
    }
    p
}

// PRINT with no element is a new line.
fn empty_line(code: &mut CodeGen, n: u32, r: Range)
    ensures same { SameLoans code.old code.new }
    ensures value { (t : List ℕ) → mem_of code.new ≡ blank_line (mem_r t) n r (mem_of code.old) }
{
    if n == 0 {
        code.emit(r, Call::Newline)
    }
}

pub fn compile_print(src: &Source, code: &mut CodeGen, at: usize, left: usize, r: Range) -> usize
    ensures same { SameLoans code.old code.new }
    ensures value { (k : ℕ) → Body src.now.sheet.now src.now.text.now src.now.base left Shape.Print k r at (mem_of code.old) (mem_of code.new) result }
{
    let c = expressions::expr::read_payload(src.sheet, at);
    let x = print_each(src, code, c.at, left, c.value, r);
    empty_line(code, c.value, r);
    code.emit(r, Call::Flush);
    x
}

// What compile_expr of compiler.rs does for one node, without its children. Functions and operators are numbers: they go into the
// records as they stand in the sheet, also a number that names none.
ghost use Rattle.std.specs.Prelude.{◌≡◌, List, ℕ, Option, is_some, unwrap_or};
ghost use Rattle.recorder.specs.declared.word.Range.{Range};
ghost use Rattle.recorder.specs.Mem.{mem_r};
ghost use Rattle.recorder.specs.CodeGen.{mem_of, SameLoans};
ghost use Rattle.sheet.specs.Tree.{opt_at};
ghost use Rattle.recorder.specs.Word.{range_at};
ghost use Rattle.rules.specs.Tables.{signature_of};
ghost use Rattle.rules.specs.Expr.{out, blank_note, compile_sym, check_type, check_real, real_sym, var_node, var_place, quoted_start, tab_note, like_type, unlike_type, like_call, text_node, number_node, arity_notes, func_notes, func_node, opt_real_sym, user_call, like_node, arith_node, binary_node, unary_node, index_node, index_place, quoted_length, ends_in_quote};
ghost use Rattle.nodes.specs.Compiled.{sym, named, opt_of};

use crate::source::Source;
use recorder::call::{Call, Class};
use recorder::codegen::CodeGen;
use recorder::number::{TEXT_LIMIT, TOO_LARGE};
use recorder::unit::QUOTE;
use recorder::word::Range;
use rules::tables::{ADD, Sig};
use rules::types::Type;

// A symbol's number and its kind.
#[derive(Clone, Copy)]
pub struct Sym {
    pub number: u32,
    pub ty: Type,
}

// As jumps' target_at and opt_label_at: one function over what is read would take a closure, and ask in public that it may be called.
pub fn opt_range_at(sheet: &[u32], at: usize) -> Option<Range>
    ensures { opt_of result ≡ opt_at sheet.now (range_at sheet.now) at }
{
    if sheet::leaf::is_absent(sheet, at) {
        None
    } else {
        Some(recorder::word::range_at(sheet, at))
    }
}

// A note of class 4 where the kind is not the one wanted. check_real, NEXT's next_note and places' fits_note note unless a test holds,
// too: one function over class and test would be their if alone. The range comes from the sheet, the kind from compiling: a struct of
// both would be put together before each call.
#[tactic(auto, unfolding(rules::specs::Expr::check_type))]
pub fn check_type(code: &mut CodeGen, want: Type, r: Range, ty: Type)
    ensures same { SameLoans code.old code.new }
    ensures value { (t : List ℕ) (base : ℕ) → mem_of code.new ≡ check_type (mem_r t) t base want r ty (mem_of code.old) }
{
    if ty.matches(want) {
        return;
    }
    code.note(Class::KindsDiffer, r)
}

// A warning where units of a name are lost, and how many.
fn blank_note(code: &mut CodeGen, lost: u32, r: Range)
    ensures same { SameLoans code.old code.new }
    ensures value { (t : List ℕ) (base : ℕ) → mem_of code.new ≡ blank_note (mem_r t) t base lost r (mem_of code.old) }
{
    if 0 < lost {
        code.note_lost(Class::BlankInName, r, lost)
    }
}

// A name: the warning, then its symbol.
#[tactic(auto, unfolding(rules::specs::Expr::compile_sym))]
pub fn compile_sym(src: &Source, code: &mut CodeGen, r: Range) -> Sym
    ensures same { SameLoans code.old code.new }
    ensures value { sym (mem_of code.new) result.number result.ty ≡ compile_sym (mem_r src.now.text.now) src.now.text.now src.now.base r (mem_of code.old) }
{
    let n = rules::name::read_name(src.text, src.base, r);
    let ty = n.ty;
    blank_note(code, n.lost, r);
    let y = code.make_symbol(src.text, &n.name);
    Sym { number: y, ty }
}

// A note of class 5 where a name's kind is not exactly real.
#[tactic(auto, unfolding(rules::specs::Expr::check_real))]
fn check_real(code: &mut CodeGen, r: Range, ty: Type)
    ensures same { SameLoans code.old code.new }
    ensures value { (t : List ℕ) (base : ℕ) → mem_of code.new ≡ check_real (mem_r t) t base r ty (mem_of code.old) }
{
    if ty.exact_matches(Type::Real) {
        return;
    }
    code.note(Class::NameOfWrongKind, r)
}

// A name that must be exactly real: a function, a parameter, FOR's counter.
#[tactic(auto, unfolding(rules::specs::Expr::real_sym))]
pub fn real_sym(src: &Source, code: &mut CodeGen, r: Range) -> u32
    ensures same { SameLoans code.old code.new }
    ensures value { named (mem_of code.new) result ≡ real_sym (mem_r src.now.text.now) src.now.text.now src.now.base r (mem_of code.old) }
{
    let s = compile_sym(src, code, r);
    let ty = s.ty;
    check_real(code, r, ty);
    s.number
}

// The same where the name may be absent. The rules tell a missing symbol by the name's Option, and keep the number apart: each clause on a
// symbol says that the two agree.
pub fn opt_real_sym(src: &Source, code: &mut CodeGen, o: Option<Range>) -> Option<u32>
    ensures same { SameLoans code.old code.new }
    ensures told { is_some o ≡ is_some result }
    ensures value { named (mem_of code.new) (unwrap_or result 0) ≡ opt_real_sym (mem_r src.now.text.now) src.now.text.now src.now.base (opt_of o) (mem_of code.old) }
{
    let r = o?;
    Some(real_sym(src, code, r))
}

// A variable: call 5.
#[tactic(auto, unfolding(rules::specs::Expr::var_node))]
pub fn var_node(src: &Source, code: &mut CodeGen, r: Range) -> Type
    ensures same { SameLoans code.old code.new }
    ensures value { out (mem_of code.new) result ≡ var_node (mem_r src.now.text.now) src.now.text.now src.now.base r (mem_of code.old) }
{
    let y = compile_sym(src, code, r);
    let ty = y.ty;
    code.emit(r, Call::Var(y.number));
    ty
}

// A variable to store to: call 7. It differs from var_node in the call, which is made of the symbol: one function would take what
// makes the call, and name neither rule.
pub fn var_place(src: &Source, code: &mut CodeGen, r: Range) -> Type
    ensures same { SameLoans code.old code.new }
    ensures value { out (mem_of code.new) result ≡ var_place (mem_r src.now.text.now) src.now.text.now src.now.base r (mem_of code.old) }
{
    let y = compile_sym(src, code, r);
    let ty = y.ty;
    code.emit(r, Call::VarLvalue(y.number));
    ty
}

fn ends_in_quote(src: &Source, r: Range) -> bool
    ensures { result ≡ ends_in_quote src.now.text.now src.now.base r }
{
    let last = rules::name::text_place(src.base, u32::from(r.end)).saturating_sub(1);
    u32::from(r.start) + 1 < u32::from(r.end)
        && recorder::word::unit_at(src.text, last as usize) == QUOTE
}

// The units of a string, prompt or quoted datum, without its first and without a last quote.
#[tactic(auto, unfolding(rules::specs::Expr::quoted_length))]
pub fn quoted_length(src: &Source, r: Range) -> u32
    ensures { result ≡ quoted_length src.now.text.now src.now.base r }
{
    let n = rules::name::units(r).saturating_sub(1);
    if ends_in_quote(src, r) {
        n.saturating_sub(1)
    } else {
        n
    }
}

pub fn quoted_start(base: u32, r: Range) -> u32
    ensures { result ≡ quoted_start base r }
{
    rules::name::text_place(base, u32::from(r.start) + 1)
}

// A text: call 4, and a note where it is above 255. A datum has the note's two lines, too: a function for them would be no shorter.
#[tactic(auto, unfolding(rules::specs::Expr::text_node))]
pub fn text_node(src: &Source, code: &mut CodeGen, r: Range)
    ensures same { SameLoans code.old code.new }
    ensures value { mem_of code.new ≡ text_node (mem_r src.now.text.now) src.now.text.now src.now.base r (mem_of code.old) }
{
    let n = quoted_length(src, r);
    let a = quoted_start(src.base, r);
    code.emit(r, Call::String(a, n));
    if TEXT_LIMIT < n {
        code.note(Class::TextTooLong, r)
    }
}

// A number: call 3, or a note where it is too large. The exponent is the sheet's number, so it is compared as it stands.
#[tactic(auto, unfolding(rules::specs::Expr::number_node))]
pub fn number_node(code: &mut CodeGen, r: Range, e: u32, m: u32)
    ensures same { SameLoans code.old code.new }
    ensures value { (t : List ℕ) (base : ℕ) → mem_of code.new ≡ number_node (mem_r t) t base r e m (mem_of code.old) }
{
    if e == TOO_LARGE {
        code.note(Class::NumberTooLarge, r)
    } else {
        code.emit(r, Call::Number(e, m))
    }
}

fn tab_note(code: &mut CodeGen, k: u32, fr: Range)
    ensures same { SameLoans code.old code.new }
    ensures value { (t : List ℕ) (base : ℕ) → mem_of code.new ≡ tab_note (mem_r t) t base k fr (mem_of code.old) }
{
    if rules::tables::is_tab_or_spc(k) {
        code.note(Class::NotAllowed, fr)
    }
}

// Too few arguments, or too many.
#[tactic(auto, unfolding(rules::specs::Expr::arity_notes, rules::specs::Tables::signature_of))]
fn arity_notes(code: &mut CodeGen, k: u32, n: u32, r: Range)
    ensures same { SameLoans code.old code.new }
    ensures value { (t : List ℕ) (base : ℕ) → mem_of code.new ≡ arity_notes (mem_r t) t base (signature_of k) n r (mem_of code.old) }
{
    let g = Sig::of_function(k);
    if n < g.min_args() {
        code.note(Class::TooFewArguments, r);
        return;
    }
    if g.max_args() < n {
        code.note(Class::TooManyArguments, r);
    }
}

// What comes before a function's arguments. k, n and r are one call's: compile_expr alone has them, and would make a struct for two calls.
#[tactic(auto, unfolding(rules::specs::Expr::func_notes))]
pub fn func_notes(code: &mut CodeGen, k: u32, n: u32, fr: Range, r: Range)
    ensures same { SameLoans code.old code.new }
    ensures value { (t : List ℕ) (base : ℕ) → mem_of code.new ≡ func_notes (mem_r t) t base k n fr r (mem_of code.old) }
{
    tab_note(code, k, fr);
    arity_notes(code, k, n, r)
}

// A function's call: call 11.
#[tactic(auto, unfolding(rules::specs::Expr::func_node))]
pub fn func_node(code: &mut CodeGen, k: u32, n: u32, r: Range) -> Type
    ensures same { SameLoans code.old code.new }
    ensures value { (t : List ℕ) (base : ℕ) → out (mem_of code.new) result ≡ func_node (mem_r t) t base k n r (mem_of code.old) }
{
    code.emit(r, Call::SysFuncCall(k, n));
    Sig::of_function(k).result_type()
}

// A user function's call behind its argument: call 12. The rule asks whether the name, o, is there, which the symbol tells.
pub fn user_call(code: &mut CodeGen, f: Option<u32>, r: Range)
    ensures same { SameLoans code.old code.new }
    ensures value { (t : List ℕ) (base : ℕ) (o : Option Range) → is_some o ≡ is_some f → mem_of code.new ≡ user_call (mem_r t) t base (opt_of o) r (unwrap_or f 0) (mem_of code.old) }
{
    if let Some(n) = f {
        code.emit(r, Call::UserFuncCall(n))
    }
}

fn like_type(k: u32, x: Type) -> Type
    ensures { result ≡ like_type k x }
{
    if k == ADD {
        x.as_rvalue_type()
    } else {
        Type::Real
    }
}

fn unlike_type(k: u32) -> Type
    ensures { result ≡ unlike_type k }
{
    if k == ADD { Type::Error } else { Type::Real }
}

fn like_call(code: &mut CodeGen, k: u32, r: Range, x: Type)
    ensures same { SameLoans code.old code.new }
    ensures value { (t : List ℕ) (base : ℕ) → mem_of code.new ≡ like_call (mem_r t) t base k r x (mem_of code.old) }
{
    match x {
        Type::String => code.emit(r, Call::StrBinaryExpr(k)),
        _ => code.emit(r, Call::NumBinaryExpr(k)),
    }
}

// Comparisons and Add take two of a kind.
#[tactic(auto, unfolding(rules::specs::Expr::like_node))]
fn like_node(code: &mut CodeGen, k: u32, r: Range, o: Range, x: Type, y: Type) -> Type
    ensures same { SameLoans code.old code.new }
    ensures value { (t : List ℕ) (base : ℕ) → out (mem_of code.new) result ≡ like_node (mem_r t) t base k r o x y (mem_of code.old) }
{
    if x.matches(y) {
        like_call(code, k, r, x);
        let ty = like_type(k, x);
        ty
    } else {
        code.note(Class::KindsDiffer, o);
        let ty = unlike_type(k);
        ty
    }
}

// The other operators take numbers.
#[tactic(auto, unfolding(rules::specs::Expr::arith_node))]
fn arith_node(code: &mut CodeGen, k: u32, r: Range, ar: Range, br: Range, x: Type, y: Type) -> Type
    ensures same { SameLoans code.old code.new }
    ensures value { (t : List ℕ) (base : ℕ) → out (mem_of code.new) result ≡ arith_node (mem_r t) t base k r ar br x y (mem_of code.old) }
{
    check_type(code, Type::Real, ar, x);
    check_type(code, Type::Real, br, y);
    code.emit(r, Call::NumBinaryExpr(k));
    Type::Real
}

// compile_binary_expr behind its two sides.
#[tactic(auto, unfolding(rules::specs::Expr::binary_node))]
pub fn binary_node(
    code: &mut CodeGen,
    k: u32,
    r: Range,
    ar: Range,
    o: Range,
    br: Range,
    x: Type,
    y: Type,
) -> Type
    ensures same { SameLoans code.old code.new }
    ensures value { (t : List ℕ) (base : ℕ) → out (mem_of code.new) result ≡ binary_node (mem_r t) t base k r ar o br x y (mem_of code.old) }
{
    if k <= ADD {
        like_node(code, k, r, o, x, y)
    } else {
        arith_node(code, k, r, ar, br, x, y)
    }
}

#[tactic(auto, unfolding(rules::specs::Expr::unary_node))]
pub fn unary_node(code: &mut CodeGen, k: u32, r: Range, ar: Range, x: Type) -> Type
    ensures same { SameLoans code.old code.new }
    ensures value { (t : List ℕ) (base : ℕ) → out (mem_of code.new) result ≡ unary_node (mem_r t) t base k r ar x (mem_of code.old) }
{
    check_type(code, Type::Real, ar, x);
    code.emit(r, Call::UnaryExpr(k));
    Type::Real
}

// An array's element behind its subscripts: call 6.
pub fn index_node(src: &Source, code: &mut CodeGen, o: Option<Range>, r: Range, n: u32) -> Type
    ensures same { SameLoans code.old code.new }
    ensures value { out (mem_of code.new) result ≡ index_node (mem_r src.now.text.now) src.now.text.now src.now.base (opt_of o) r n (mem_of code.old) }
{
    match o {
        Some(nr) => {
            let y = compile_sym(src, code, nr);
            let ty = y.ty;
            code.emit(r, Call::Index(y.number, n));
            ty
        }
        None => Type::Error,
    }
}

// An array's element to store to: call 8. index_node, this and DIM's dim_node differ in the call and in the range that it gets: one
// function would take both as parameters.
pub fn index_place(src: &Source, code: &mut CodeGen, o: Option<Range>, n: u32) -> Type
    ensures same { SameLoans code.old code.new }
    ensures value { out (mem_of code.new) result ≡ index_place (mem_r src.now.text.now) src.now.text.now src.now.base (opt_of o) n (mem_of code.old) }
{
    match o {
        Some(nr) => {
            let y = compile_sym(src, code, nr);
            let ty = y.ty;
            code.emit(nr, Call::IndexLvalue(y.number, n));
            ty
        }
        None => Type::Error,
    }
}

// compile_expr of compiler.rs: an expression and its list of arguments call each other; the remaining depth falls. Here and in the
// statements a number returned is the place behind. `at` moves with each call, `left` falls only where a child is entered: as one struct
// they would be put together anew at each.
ghost use Rattle.std.specs.Prelude.{◌≡◌};
ghost use Rattle.recorder.specs.CodeGen.{mem_of, SameLoans};
ghost use Rattle.recorder.specs.Word.{range_at, next};
ghost use Rattle.sheet.specs.Tree.{mantissa_at};
ghost use Rattle.nodes.specs.Compiled.{Compiled, CompiledArgs, CompiledTyped, CompiledPlace, PlaceTyped, OpAt, PayloadAt};

use nodes::source::Source;
use recorder::call::Call;
use recorder::codegen::CodeGen;
use recorder::number::HALF_SIZE;
use recorder::word::Range;
use rules::tables::Wants;
use rules::types::Type;
use sheet::form::ExprKind;

// What an expression leaves besides the state: the place behind it, its kind. As Payload, Op, Branch and Step: what was read, and the
// place behind. One generic struct would call all of it value.
#[derive(Clone, Copy)]
pub struct TypedBehind {
    pub at: usize,
    pub ty: Type,
}

// An operator's range and kind, and the place behind them.
#[derive(Clone, Copy)]
struct Op {
    range: Range,
    kind: u32,
    at: usize,
}

// A word's payload, and the place behind the word. A list's count and first place go on as two numbers: loops use them apart, and a
// struct goes through memory.
#[derive(Clone, Copy)]
pub struct Payload {
    pub value: u32,
    pub at: usize,
}

// The range of the expression or statement at a place: the word behind its head. What reads takes the sheet and a place, as
// recorder::word does, since a place alone is returned and handed on.
pub fn node_range(sheet: &[u32], at: usize) -> Range
    ensures { result ≡ range_at sheet.now (next sheet.now at) }
{
    recorder::word::range_at(sheet, recorder::word::behind(sheet, at))
}

fn op_at(sheet: &[u32], at: usize) -> Op
    ensures { OpAt sheet.now at result.range result.kind result.at }
{
    let p = recorder::word::behind(sheet, at);
    let range = recorder::word::range_at(sheet, at);
    Op {
        range,
        kind: recorder::word::payload_at(sheet, p),
        at: recorder::word::behind(sheet, p),
    }
}

pub fn read_payload(sheet: &[u32], at: usize) -> Payload
    ensures { PayloadAt sheet.now at result.value result.at }
{
    Payload {
        value: recorder::word::payload_at(sheet, at),
        at: recorder::word::behind(sheet, at),
    }
}

// The high and low 16 bits of a literal's m.
fn mantissa_at(sheet: &[u32], at: usize) -> u32
    ensures { result ≡ mantissa_at sheet.now at }
{
    let h = recorder::word::payload_at(sheet, at);
    let l = recorder::word::payload_at(sheet, recorder::word::behind(sheet, at));
    h % HALF_SIZE * HALF_SIZE + l % HALF_SIZE
}

// A node's number, range and place behind are read line by line, here and in four more functions: a struct of them would be taken apart
// at once.
#[cycle(expr_cycle)]
#[tactic(auto, unfolding(sheet::specs::Tree::expr_at, sheet::specs::Skip::skip_node, rules::specs::Expr::compile_expr))]
pub fn compile_expr(src: &Source, code: &mut CodeGen, at: usize, left: usize) -> TypedBehind
    ensures same { SameLoans code.old code.new }
    ensures value { Compiled src.now.sheet.now src.now.text.now src.now.base left at (mem_of code.old) (mem_of code.new) result.at result.ty }
{
    if left == 0 {
        return TypedBehind {
            at,
            ty: Type::Error,
        };
    }
    let k = recorder::word::payload_at(src.sheet, at);
    let r = node_range(src.sheet, at);
    let p = recorder::word::behind(src.sheet, recorder::word::behind(src.sheet, at));
    match ExprKind::of(k) {
        ExprKind::Ident => {
            let ty = nodes::node::var_node(src, code, r);
            TypedBehind { at: p, ty }
        }
        ExprKind::StringLit => {
            nodes::node::text_node(src, code, r);
            TypedBehind {
                at: p,
                ty: Type::String,
            }
        }
        ExprKind::NumberLit => {
            let e = read_payload(src.sheet, p);
            let m = mantissa_at(src.sheet, e.at);
            let q = recorder::word::behind(src.sheet, recorder::word::behind(src.sheet, e.at));
            nodes::node::number_node(code, r, e.value, m);
            TypedBehind {
                at: q,
                ty: Type::Real,
            }
        }
        ExprKind::SysFuncCall => {
            let f = op_at(src.sheet, p);
            let fr = f.range;
            let c = read_payload(src.sheet, f.at);
            nodes::node::func_notes(code, f.kind, c.value, fr, r);
            let x = compile_args(src, code, c.at, c.value, Wants::Func(f.kind), left - 1);
            let ty = nodes::node::func_node(code, f.kind, c.value, r);
            TypedBehind { at: x, ty }
        }
        ExprKind::UserFuncCall => {
            let o = nodes::node::opt_range_at(src.sheet, p);
            let q = recorder::word::behind(src.sheet, p);
            let y = nodes::node::opt_real_sym(src, code, o);
            let x = compile_expr(src, code, q, left - 1);
            let xt = x.ty;
            nodes::node::check_type(code, Type::Real, node_range(src.sheet, q), xt);
            nodes::node::user_call(code, y, r);
            TypedBehind {
                at: x.at,
                ty: Type::Real,
            }
        }
        ExprKind::Binary => {
            let x = compile_expr(src, code, p, left - 1);
            let xt = x.ty;
            let o = op_at(src.sheet, x.at);
            let or = o.range;
            let y = compile_expr(src, code, o.at, left - 1);
            let yt = y.ty;
            let ar = node_range(src.sheet, p);
            let br = node_range(src.sheet, o.at);
            let ty = nodes::node::binary_node(code, o.kind, r, ar, or, br, xt, yt);
            TypedBehind { at: y.at, ty }
        }
        ExprKind::Unary => {
            let o = op_at(src.sheet, p);
            let x = compile_expr(src, code, o.at, left - 1);
            let xt = x.ty;
            let ar = node_range(src.sheet, o.at);
            let ty = nodes::node::unary_node(code, o.kind, r, ar, xt);
            TypedBehind { at: x.at, ty }
        }
        ExprKind::Index => {
            let o = nodes::node::opt_range_at(src.sheet, p);
            let c = read_payload(src.sheet, recorder::word::behind(src.sheet, p));
            let x = compile_args(src, code, c.at, c.value, Wants::Every, left - 1);
            let ty = nodes::node::index_node(src, code, o, r, c.value);
            TypedBehind { at: x, ty }
        }
        ExprKind::Inkey => {
            code.emit(r, Call::Inkey);
            TypedBehind {
                at: p,
                ty: Type::String,
            }
        }
        ExprKind::Error => TypedBehind {
            at: p,
            ty: Type::Error,
        },
    }
}

// So many expressions, each with a note where its kind is not the one wanted. `wants` is an enum, no closure: the contract names its rule
// (wanted_by), and the cycle has no type parameter. accept_fields' lists share a loop over a closure. Here the closure would write code,
// of which a contract says only that it was called.
#[cycle(expr_cycle)]
#[tactic(auto, unfolding(sheet::specs::Skip::skip_repeat, sheet::specs::Tree::exprs_at, rules::specs::Expr::compile_args), using(crate::proofs::Lists::turns, crate::proofs::ExprLaws::range_of_lem))]
pub fn compile_args(
    src: &Source,
    code: &mut CodeGen,
    at: usize,
    n: u32,
    wants: Wants,
    left: usize,
) -> usize
    ensures same { SameLoans code.old code.new }
    ensures value { CompiledArgs src.now.sheet.now src.now.text.now src.now.base left at n wants (mem_of code.old) (mem_of code.new) result }
{
    let mut p = at;
    for i in 0..n {
        let x = compile_expr(src, code, p, left);
        let xt = x.ty;
        let w = wants.want(i);
        nodes::node::check_type(code, w, node_range(src.sheet, p), xt);
        p = x.at;
    }
    p
}

// An expression of which a kind is wanted. Its lines stand in compile_args and at a user function's argument, too: called from there it
// would be a third in the cycle.
#[tactic(auto, using(crate::proofs::ExprLaws::range_of_lem))]
pub fn compile_typed(src: &Source, code: &mut CodeGen, at: usize, left: usize, want: Type) -> usize
    ensures same { SameLoans code.old code.new }
    ensures value { CompiledTyped src.now.sheet.now src.now.text.now src.now.base left at want (mem_of code.old) (mem_of code.new) result }
{
    let x = compile_expr(src, code, at, left);
    let xt = x.ty;
    let r = node_range(src.sheet, at);
    nodes::node::check_type(code, want, r, xt);
    x.at
}

// compile_lvalue: a place to store, which is a variable or an array's element; anything else makes nothing. The three lines on an
// element's subscripts stand in compile_expr and DIM's dim_one, too: a function for them would be a third in the cycle.
#[tactic(auto, unfolding(sheet::specs::Tree::expr_at, sheet::specs::Skip::skip_node, rules::specs::Expr::compile_lvalue))]
pub fn compile_lvalue(src: &Source, code: &mut CodeGen, at: usize, left: usize) -> TypedBehind
    ensures same { SameLoans code.old code.new }
    ensures value { CompiledPlace src.now.sheet.now src.now.text.now src.now.base left at (mem_of code.old) (mem_of code.new) result.at result.ty }
{
    if left == 0 {
        return TypedBehind {
            at,
            ty: Type::Error,
        };
    }
    let k = recorder::word::payload_at(src.sheet, at);
    let r = node_range(src.sheet, at);
    let p = recorder::word::behind(src.sheet, recorder::word::behind(src.sheet, at));
    match ExprKind::of(k) {
        ExprKind::Ident => {
            let ty = nodes::node::var_place(src, code, r);
            TypedBehind { at: p, ty }
        }
        ExprKind::Index => {
            let o = nodes::node::opt_range_at(src.sheet, p);
            let c = read_payload(src.sheet, recorder::word::behind(src.sheet, p));
            let x = compile_args(src, code, c.at, c.value, Wants::Every, left - 1);
            let ty = nodes::node::index_place(src, code, o, c.value);
            TypedBehind { at: x, ty }
        }
        _ => TypedBehind {
            at: walk::stmt::skip_expr(src.sheet, at, left),
            ty: Type::Error,
        },
    }
}

// A place to store of which a kind is wanted: compile_typed over compile_lvalue. One over both would take the function, and state its
// contract again as a premise.
#[tactic(auto, using(crate::proofs::ExprLaws::range_of_lem))]
pub fn place_typed(src: &Source, code: &mut CodeGen, at: usize, left: usize, want: Type) -> usize
    ensures same { SameLoans code.old code.new }
    ensures value { PlaceTyped src.now.sheet.now src.now.text.now src.now.base left at want (mem_of code.old) (mem_of code.new) result }
{
    let x = compile_lvalue(src, code, at, left);
    let xt = x.ty;
    let r = node_range(src.sheet, at);
    nodes::node::check_type(code, want, r, xt);
    x.at
}

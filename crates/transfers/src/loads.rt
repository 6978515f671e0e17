// compile_load of compiler.rs.
ghost use Rattle.std.specs.Prelude.{◌≡◌, List, ℕ};
ghost use Rattle.recorder.specs.Mem.{mem_r};
ghost use Rattle.recorder.specs.CodeGen.{mem_of, SameLoans};
ghost use Rattle.sheet.specs.Tree.{expr_at};
ghost use Rattle.sheet.specs.Args.{args_at};
ghost use Rattle.rules.specs.Stmt.{fresh, up_to255, digit, plus, byte_unit, byte_units, final_byte, byte_of, bad_byte, all_bytes, load_byte, load_bytes};
ghost use Rattle.nodes.specs.Compiled.{opt_of};
ghost use Rattle.expressions.specs.Body.{Body};
ghost use Rattle.transfers.specs.Parts.{read_of, BytesNoted, Loaded};

use nodes::source::Source;
use recorder::call::{Call, Class};
use recorder::codegen::CodeGen;
use recorder::unit::{BLANK, NINE, PLUS, ZERO};
use recorder::word::Range;
use rules::types::Type;
use sheet::form::{ExprKind, Shape, Sort};

// A byte that is being read: its value so far, nothing yet, a plus, or what is no byte.
#[derive(Clone, Copy)]
enum ReadByte {
    Value(u8),
    Nothing,
    Plus,
    Bad,
}

fn up_to_255(n: u32) -> ReadByte
    ensures { read_of result ≡ up_to255 n }
{
    match u8::try_from(n) {
        Ok(v) => ReadByte::Value(v),
        Err(_) => ReadByte::Bad,
    }
}

fn digit_behind(b: ReadByte, d: u16) -> ReadByte
    ensures { read_of result ≡ digit (read_of b) d }
{
    match b {
        ReadByte::Value(v) => up_to_255(u32::from(v) * 10 + u32::from(d)),
        ReadByte::Nothing | ReadByte::Plus => up_to_255(u32::from(d)),
        ReadByte::Bad => ReadByte::Bad,
    }
}

// A step of the reading, no conversion: a plus comes first, or what is read is no byte.
fn plus_behind(b: ReadByte) -> ReadByte
    ensures { read_of result ≡ plus (read_of b) }
{
    match b {
        ReadByte::Nothing => ReadByte::Plus,
        _ => ReadByte::Bad,
    }
}

// One more unit: blanks are passed over.
fn byte_unit(b: ReadByte, u: u16) -> ReadByte
    ensures { read_of result ≡ byte_unit (read_of b) u }
{
    match u {
        BLANK => b,
        PLUS => plus_behind(b),
        ZERO..=NINE => digit_behind(b, u - ZERO),
        _ => ReadByte::Bad,
    }
}

// Behind the text each unit reads as 0, which is no byte; a slice's iterator would end there and take a shorter number.
#[tactic(auto, unfolding(rules::specs::Stmt::byte_units), using(expressions::proofs::Lists::turns))]
fn byte_units(text: &[u16], at: usize, n: u32) -> ReadByte
    ensures { read_of result ≡ byte_units text.now at n fresh }
{
    let mut p = at;
    let mut b = ReadByte::Nothing;
    for _ in 0..n {
        b = byte_unit(b, recorder::word::unit_at(text, p));
        p = recorder::word::behind(text, p);
    }
    b
}

impl ReadByte {
    // The byte that was read.
    fn byte(self) -> Option<u8>
        ensures { opt_of result ≡ final_byte (read_of self) }
    {
        match self {
            ReadByte::Value(v) => Some(v),
            _ => None,
        }
    }
}

// The byte that the argument at a place is.
#[tactic(auto, using(crate::proofs::LoadLaws::byte_zero))]
fn byte_of(src: &Source, at: usize, left: usize) -> Option<u8>
    ensures { opt_of result ≡ byte_of src.now.text.now src.now.base (expr_at src.now.sheet.now left at) }
{
    if left == 0 {
        return None;
    }
    match ExprKind::of(recorder::word::payload_at(src.sheet, at)) {
        ExprKind::NumberLit => {
            let r = expressions::expr::node_range(src.sheet, at);
            let a = rules::name::text_place(src.base, u32::from(r.start));
            let n = rules::name::units(r);
            byte_units(src.text, a as usize, n).byte()
        }
        _ => None,
    }
}

// A note of class 12 for what is no byte.
fn bad_byte(code: &mut CodeGen, v: Option<u8>, r: Range)
    ensures same { SameLoans code.old code.new }
    ensures value { (t : List ℕ) (base : ℕ) → mem_of code.new ≡ bad_byte (mem_r t) t base (opt_of v) r (mem_of code.old) }
{
    if v.is_none() {
        code.note(Class::NotAllowed, r)
    }
}

// The notes for so many arguments, and the place behind them. load_bytes and all_bytes walk alike, but of a closure that writes
// code one walk's contract could say only that its calls ran.
#[tactic(auto, unfolding(sheet::specs::Skip::skip_repeat, sheet::specs::Tree::exprs_at, rules::specs::Stmt::bad_bytes), using(expressions::proofs::Lists::turns, expressions::proofs::ExprLaws::range_of_lem))]
fn bad_bytes(src: &Source, code: &mut CodeGen, at: usize, left: usize, n: u32) -> usize
    ensures same { SameLoans code.old code.new }
    ensures value { BytesNoted src.now.sheet.now src.now.text.now src.now.base left n at (mem_of code.old) (mem_of code.new) result }
{
    let mut p = at;
    for _ in 0..n {
        let v = byte_of(src, p, left);
        let r = expressions::expr::node_range(src.sheet, p);
        bad_byte(code, v, r);
        p = walk::stmt::skip_expr(src.sheet, p, left);
    }
    p
}

// Whether each of so many arguments is a byte.
#[tactic(auto, unfolding(sheet::specs::Tree::exprs_at, rules::specs::Stmt::all_bytes), using(expressions::proofs::Lists::turns))]
fn all_bytes(src: &Source, at: usize, left: usize, n: u32) -> bool
    ensures { result ≡ all_bytes (mem_r src.now.text.now) src.now.text.now src.now.base (args_at src.now.sheet.now left n at) }
{
    let mut p = at;
    for _ in 0..n {
        if byte_of(src, p, left).is_none() {
            return false;
        }
        p = walk::stmt::skip_expr(src.sheet, p, left);
    }
    true
}

// An entry of the book for a byte.
fn load_one(src: &Source, code: &mut CodeGen, v: Option<u8>, r: Range)
    ensures same { SameLoans code.old code.new }
    ensures value { (t : List ℕ) → mem_of code.new ≡ load_byte (mem_r t) t src.now.base (opt_of v) r (mem_of code.old) }
{
    if let Some(byte) = v {
        let a = rules::name::text_place(src.base, u32::from(r.start));
        let n = rules::name::units(r);
        code.load_byte(a, n, u32::from(byte))
    }
}

#[tactic(auto, unfolding(sheet::specs::Tree::exprs_at, rules::specs::Stmt::load_bytes), using(expressions::proofs::Lists::turns, expressions::proofs::ExprLaws::range_of_lem))]
fn load_bytes(src: &Source, code: &mut CodeGen, at: usize, left: usize, n: u32)
    ensures same { SameLoans code.old code.new }
    ensures value { mem_of code.new ≡ load_bytes (mem_r src.now.text.now) src.now.text.now src.now.base (args_at src.now.sheet.now left n at) (mem_of code.old) }
{
    let mut p = at;
    for _ in 0..n {
        let v = byte_of(src, p, left);
        let r = expressions::expr::node_range(src.sheet, p);
        load_one(src, code, v, r);
        p = walk::stmt::skip_expr(src.sheet, p, left);
    }
}

// From the argument behind the first on, n of them.
#[tactic(auto, unfolding(sheet::specs::Tree::exprs_at, sheet::specs::Skip::skip_repeat, rules::specs::Stmt::load_node))]
fn load_node(src: &Source, code: &mut CodeGen, at: usize, left: usize, n: u32, r: Range) -> usize
    ensures same { SameLoans code.old code.new }
    ensures value { Loaded src.now.sheet.now src.now.text.now src.now.base left n r at (mem_of code.old) (mem_of code.new) result }
{
    if n == 0 {
        code.note(Class::TooFewArguments, r);
        return at;
    }
    let x = bad_bytes(src, code, at, left, n);
    if all_bytes(src, at, left, n) {
        let first = code.next_byte();
        load_bytes(src, code, at, left, n);
        code.emit(r, Call::LoadBytes(first, n));
        x
    } else {
        x
    }
}

pub fn compile_load(src: &Source, code: &mut CodeGen, at: usize, left: usize, r: Range) -> usize
    ensures same { SameLoans code.old code.new }
    ensures value { (k : ℕ) → Body src.now.sheet.now src.now.text.now src.now.base left Shape.Load k r at (mem_of code.old) (mem_of code.new) result }
{
    let c = expressions::expr::read_payload(src.sheet, at);
    if c.value == 0 {
        return c.at;
    }
    let x = expressions::expr::compile_typed(src, code, c.at, left, Type::Real);
    load_node(src, code, x, left, c.value - 1, r)
}

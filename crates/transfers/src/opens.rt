// compile_open of compiler.rs.
ghost use Rattle.std.specs.Prelude.{◌≡◌, List, ℕ};
ghost use Rattle.recorder.specs.Mem.{mem_r};
ghost use Rattle.recorder.specs.CodeGen.{mem_of, SameLoans};
ghost use Rattle.rules.specs.Stmt.{len_notes};
ghost use Rattle.expressions.specs.Body.{Body};
ghost use Rattle.transfers.specs.Parts.{Opened, open_call};

use nodes::source::Source;
use recorder::call::{Call, Class};
use recorder::codegen::CodeGen;
use recorder::word::Range;
use rules::types::Type;
use sheet::form::Shape;

// Two modes of OPEN by their numbers.
const ERROR: u32 = 0;

const RANDOM: u32 = 1;

// LEN with a mode that is neither Error nor Random. A mode goes into the record as it stands in the sheet, so it is no enum.
fn len_note(code: &mut CodeGen, mode: u32, r: Range)
    ensures same { SameLoans code.old code.new }
    ensures value { (t : List ℕ) (base : ℕ) → mem_of code.new ≡ len_notes (mem_r t) t base mode r (mem_of code.old) }
{
    if !matches!(mode, ERROR | RANDOM) {
        code.note(Class::NotAllowed, r)
    }
}

// The call behind LEN, which the mode Error does not get.
fn open_call(code: &mut CodeGen, mode: u32, r: Range)
    ensures same { SameLoans code.old code.new }
    ensures value { (t : List ℕ) → mem_of code.new ≡ open_call (mem_r t) mode r (mem_of code.old) }
{
    if mode == ERROR {
        return;
    }
    code.emit(r, Call::Open(mode, true))
}

// From LEN on, which may be absent.
fn open_node(src: &Source, code: &mut CodeGen, at: usize, left: usize, mode: u32, r: Range) -> usize
    ensures same { SameLoans code.old code.new }
    ensures value { Opened src.now.sheet.now src.now.text.now src.now.base left mode r at (mem_of code.old) (mem_of code.new) result }
{
    let q = recorder::word::behind(src.sheet, at);
    if sheet::leaf::is_absent(src.sheet, at) {
        code.emit(r, Call::Open(mode, false));
        return q;
    }
    let lr = recorder::word::range_at(src.sheet, at);
    len_note(code, mode, lr);
    let x = expressions::expr::compile_typed(src, code, q, left, Type::Real);
    open_call(code, mode, r);
    x
}

#[tactic(auto, unfolding(sheet::specs::Tree::stmt_node, rules::specs::Stmt::compile_stmt, rules::specs::Stmt::compile_open, sheet::specs::Skip::skip_fields, sheet::specs::Skip::skip_field, sheet::specs::Skip::skip_times, sheet::specs::Skip::skip_pair, sheet::specs::Skip::skip_item))]
pub fn compile_open(src: &Source, code: &mut CodeGen, at: usize, left: usize, r: Range) -> usize
    ensures same { SameLoans code.old code.new }
    ensures value { (k : ℕ) → Body src.now.sheet.now src.now.text.now src.now.base left Shape.Open k r at (mem_of code.old) (mem_of code.new) result }
{
    let f = expressions::expr::compile_typed(src, code, at, left, Type::String);
    let m = expressions::expr::read_payload(src.sheet, f);
    let e = expressions::expr::compile_typed(src, code, m.at, left, Type::Real);
    open_node(src, code, e, left, m.value, r)
}

// DIM.
ghost use Rattle.std.specs.Prelude.{◌≡◌, ℕ};
ghost use Rattle.recorder.specs.declared.word.Range.{Range};
ghost use Rattle.recorder.specs.Mem.{mem_r};
ghost use Rattle.recorder.specs.CodeGen.{mem_of, SameLoans};
ghost use Rattle.sheet.specs.declared.form.Shape.TheVariants.{Dim};
ghost use Rattle.rules.specs.Stmt.{dim_node};
ghost use Rattle.nodes.specs.Compiled.{opt_of};
ghost use Rattle.expressions.specs.Body.{Body};
ghost use Rattle.declarations.specs.Parts.{Dimmed, DimDone};

use nodes::source::Source;
use recorder::call::Call;
use recorder::codegen::CodeGen;
use recorder::word::Range;
use rules::tables::Wants;
use sheet::form::ExprKind;

// An array's name behind its subscripts: call 28.
fn dim_node(src: &Source, code: &mut CodeGen, o: Option<Range>, n: u32)
    ensures same { SameLoans code.old code.new }
    ensures value { mem_of code.new ≡ dim_node (mem_r src.now.text.now) src.now.text.now src.now.base (opt_of o) n (mem_of code.old) }
{
    if let Some(nr) = o {
        let y = nodes::node::compile_sym(src, code, nr);
        code.emit(nr, Call::Dim(y.number, n))
    }
}

// An array's subscripts and its name; any other expression makes nothing.
#[tactic(auto, unfolding(sheet::specs::Tree::expr_at, sheet::specs::Skip::skip_node, rules::specs::Stmt::dim_one))]
fn dim_one(src: &Source, code: &mut CodeGen, at: usize, left: usize) -> usize
    ensures same { SameLoans code.old code.new }
    ensures value { Dimmed src.now.sheet.now src.now.text.now src.now.base left at (mem_of code.old) (mem_of code.new) result }
{
    if left == 0 {
        return at;
    }
    let k = recorder::word::payload_at(src.sheet, at);
    let p = recorder::word::behind(src.sheet, recorder::word::behind(src.sheet, at));
    match ExprKind::of(k) {
        ExprKind::Index => {
            let o = nodes::node::opt_range_at(src.sheet, p);
            let c = expressions::expr::read_payload(
                src.sheet,
                recorder::word::behind(src.sheet, p),
            );
            let x = expressions::expr::compile_args(
                src,
                code,
                c.at,
                c.value,
                Wants::Every,
                left - 1,
            );
            dim_node(src, code, o, c.value);
            x
        }
        _ => walk::stmt::skip_expr(src.sheet, at, left),
    }
}

// So many arrays from a place on.
// accept_fields' lists share a loop over a closure. Here the closure would write code, of which a contract says only that it was called.
#[tactic(auto, unfolding(sheet::specs::Skip::skip_repeat, sheet::specs::Tree::exprs_at, rules::specs::Stmt::compile_dim), using(expressions::proofs::Lists::turns))]
fn dim_each(src: &Source, code: &mut CodeGen, at: usize, n: u32, left: usize) -> usize
    ensures same { SameLoans code.old code.new }
    ensures value { DimDone src.now.sheet.now src.now.text.now src.now.base left at n (mem_of code.old) (mem_of code.new) result }
{
    let mut p = at;
    for _ in 0..n {
        p = dim_one(src, code, p, left);
    }
    p
}

#[tactic(auto, unfolding(sheet::specs::Tree::stmt_node, rules::specs::Stmt::compile_stmt, sheet::specs::Skip::skip_fields, sheet::specs::Skip::skip_field, sheet::specs::Skip::skip_times, sheet::specs::Skip::skip_pair, sheet::specs::Skip::skip_item, sheet::specs::Skip::skip_list))]
pub fn compile_dim(src: &Source, code: &mut CodeGen, at: usize, left: usize) -> usize
    ensures same { SameLoans code.old code.new }
    ensures value { (k : ℕ) (r : Range) → Body src.now.sheet.now src.now.text.now src.now.base left Dim k r at (mem_of code.old) (mem_of code.new) result }
{
    let c = expressions::expr::read_payload(src.sheet, at);
    dim_each(src, code, c.at, c.value, left)
}

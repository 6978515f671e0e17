// Notes on arguments too many: of draw statements, and of TAB and SPC in PRINT.
ghost use Rattle.std.specs.Prelude.{◌≡◌, List, ℕ};
ghost use Rattle.recorder.specs.Mem.{mem_r};
ghost use Rattle.recorder.specs.CodeGen.{mem_of, SameLoans};
ghost use Rattle.sheet.specs.Args.{args_at};
ghost use Rattle.rules.specs.Stmt.{surplus_notes};
ghost use Rattle.expressions.specs.Surplus.{surplus_note};

use nodes::source::Source;
use recorder::call::Class;
use recorder::codegen::CodeGen;
use recorder::word::Range;
use sheet::form::Sort;

// A note where no more arguments are allowed: `keep` is how many still are, by which the rule falls.
fn surplus_note(code: &mut CodeGen, keep: u32, r: Range)
    ensures same { SameLoans code.old code.new }
    ensures value { (t : List ℕ) → mem_of code.new ≡ surplus_note t keep r (mem_of code.old) }
{
    if keep == 0 {
        code.note(Class::TooManyArguments, r)
    }
}

// A note for each of n arguments behind the first so many. accept_fields' lists share a loop over a closure. Here the closure would write
// code, of which a contract says only that it was called.
#[tactic(auto, unfolding(sheet::specs::Tree::exprs_at, rules::specs::Stmt::surplus_notes), using(crate::proofs::Lists::turns, crate::proofs::ExprLaws::range_of_lem, crate::proofs::SurplusLaws::surplus_more))]
pub fn surplus_notes(src: &Source, code: &mut CodeGen, at: usize, n: u32, max: u32, left: usize)
    ensures same { SameLoans code.old code.new }
    ensures value { (t : List ℕ) (base : ℕ) → mem_of code.new ≡ surplus_notes (mem_r t) t base max (args_at src.now.sheet.now left n at) (mem_of code.old) }
{
    let mut p = at;
    for i in 0..n {
        let r = crate::expr::node_range(src.sheet, p);
        surplus_note(code, max.saturating_sub(i), r);
        p = walk::stmt::skip_expr(src.sheet, p, left);
    }
}

// DEF.
ghost use Rattle.std.specs.Prelude.{◌≡◌, ℕ, Option, is_some, unwrap_or};
ghost use Rattle.recorder.specs.declared.word.Range.{Range};
ghost use Rattle.recorder.specs.CodeGen.{mem_of, SameLoans};
ghost use Rattle.sheet.specs.declared.form.Shape.TheVariants.{Def};
ghost use Rattle.sheet.specs.Tree.{given};
ghost use Rattle.nodes.specs.Compiled.{opt_of};
ghost use Rattle.expressions.specs.Body.{Body};
ghost use Rattle.declarations.specs.Parts.{Defined};

use nodes::source::Source;
use recorder::call::Call;
use recorder::codegen::CodeGen;
use recorder::word::Range;
use rules::types::Type;

// A function that has its name and its parameter: calls 26 and 27 around its body.
fn def_whole(
    src: &Source,
    code: &mut CodeGen,
    at: usize,
    left: usize,
    r: Range,
    name: u32,
    parameter: u32,
) -> usize
    ensures same { SameLoans code.old code.new }
    ensures value { Defined src.now.sheet.now src.now.text.now src.now.base left at (given r) (given r) r name parameter (mem_of code.old) (mem_of code.new) result }
{
    let start = code.current_addr();
    code.emit(r, Call::BeginDefFn(name, parameter));
    let x = expressions::expr::compile_typed(src, code, at, left, Type::Real);
    code.emit(r, Call::EndDefFn);
    let end = code.current_addr();
    code.patch_def_end(start, end);
    x
}

// A function's body behind its name and its parameter.
fn def_node(
    src: &Source,
    code: &mut CodeGen,
    at: usize,
    left: usize,
    r: Range,
    name: Option<u32>,
    parameter: Option<u32>,
) -> usize
    ensures same { SameLoans code.old code.new }
    ensures value { (o a : Option Range) → is_some o ≡ is_some name → is_some a ≡ is_some parameter → Defined src.now.sheet.now src.now.text.now src.now.base left at (opt_of o) (opt_of a) r (unwrap_or name 0) (unwrap_or parameter 0) (mem_of code.old) (mem_of code.new) result }
{
    if let (Some(name), Some(parameter)) = (name, parameter) {
        def_whole(src, code, at, left, r, name, parameter)
    } else {
        expressions::expr::compile_typed(src, code, at, left, Type::Real)
    }
}

pub fn compile_def(src: &Source, code: &mut CodeGen, at: usize, left: usize, r: Range) -> usize
    ensures same { SameLoans code.old code.new }
    ensures value { (k : ℕ) → Body src.now.sheet.now src.now.text.now src.now.base left Def k r at (mem_of code.old) (mem_of code.new) result }
{
    let p = recorder::word::behind(src.sheet, at);
    let o = nodes::node::opt_range_at(src.sheet, at);
    let a = nodes::node::opt_range_at(src.sheet, p);
    let x = nodes::node::opt_real_sym(src, code, o);
    let y = nodes::node::opt_real_sym(src, code, a);
    let q = recorder::word::behind(src.sheet, p);
    def_node(src, code, q, left, r, x, y)
}

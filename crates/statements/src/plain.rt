// Statements by their shapes, all but IF: each is compiled by its own function.
ghost use Rattle.std.specs.Prelude.{◌≡◌};
ghost use Rattle.recorder.specs.CodeGen.{mem_of, SameLoans};
ghost use Rattle.sheet.specs.declared.form.Shape.TheVariants.{If};
ghost use Rattle.expressions.specs.Body.{Body};

use declarations::data::compile_data;
use declarations::define::compile_def;
use declarations::dim::compile_dim;
use declarations::field::compile_field;
use inputs::input::compile_input;
use jumps::jump::{compile_gosub, compile_goto, compile_on, compile_restore};
use loops::for_loop::{compile_for, compile_next};
use loops::while_loop::compile_while;
use nodes::source::Source;
use operations::draw::compile_draw_stmt;
use operations::locate::compile_locate;
use operations::op::{
    compile_no_op, compile_operands, compile_rem, compile_run, compile_set, compile_system,
};
use places::place::{compile_let, compile_read, compile_swap};
use prints::prints::compile_print;
use prints::writes::compile_write;
use recorder::codegen::CodeGen;
use recorder::word::Range;
use sheet::form::Shape;
use transfers::loads::compile_load;
use transfers::opens::compile_open;

// The arms' functions take parameters of their own; a table of function pointers would lose which one is called. A statement's number and
// range go on as two: most shapes want the range alone.
// The clause assumes that s is not If, whose arm does nothing. compile_stmt, the only caller, has an arm of its own for If before it calls
// this one with any other shape, and that is what its proof gives.
pub fn compile_plain(
    src: &Source,
    code: &mut CodeGen,
    at: usize,
    left: usize,
    s: Shape,
    k: u32,
    r: Range,
) -> usize
    ensures same { SameLoans code.old code.new }
    ensures value { (s ≡ If → ⊥) → Body src.now.sheet.now src.now.text.now src.now.base left s k r at (mem_of code.old) (mem_of code.new) result }
{
    match s {
        Shape::Rem => compile_rem(src, code, at, r),
        Shape::NoOp => compile_no_op(code, at, r),
        Shape::Op0 => compile_operands(src, code, at, left, 0, k, r),
        Shape::Run => compile_run(src, code, at, k, r),
        Shape::Op1 => compile_operands(src, code, at, left, 1, k, r),
        Shape::Op2 => compile_operands(src, code, at, left, 2, k, r),
        Shape::Op3 => compile_operands(src, code, at, left, 3, k, r),
        Shape::Draw => compile_draw_stmt(src, code, at, left, k, r),
        Shape::Set => compile_set(src, code, at, left, k, r),
        Shape::Data => compile_data(src, code, at),
        Shape::Def => compile_def(src, code, at, left, r),
        Shape::Dim => compile_dim(src, code, at, left),
        Shape::Field => compile_field(src, code, at, left, r),
        Shape::For => compile_for(src, code, at, left, r),
        Shape::GoSub => compile_gosub(src, code, at, r),
        Shape::GoTo => compile_goto(src, code, at, r),
        Shape::If => at,
        Shape::Input => compile_input(src, code, at, left, r),
        Shape::Let => compile_let(src, code, at, left, r),
        Shape::Load => compile_load(src, code, at, left, r),
        Shape::Locate => compile_locate(src, code, at, left, r),
        Shape::Next => compile_next(src, code, at, r),
        Shape::On => compile_on(src, code, at, left, r),
        Shape::Open => compile_open(src, code, at, left, r),
        Shape::Print => compile_print(src, code, at, left, r),
        Shape::Read => compile_read(src, code, at, left, r),
        Shape::Restore => compile_restore(src, code, at, r),
        Shape::Swap => compile_swap(src, code, at, left, r),
        Shape::System => compile_system(code, at, r),
        Shape::While => compile_while(src, code, at, left, r),
        Shape::Write => compile_write(src, code, at, left, r),
    }
}

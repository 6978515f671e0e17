// The shape of each case of StmtKind, and the fields of each node.
ghost use Rattle.std.specs.Prelude.{◌≡◌};
ghost use Rattle.sheet.specs.Table.{fields_of};
ghost use Rattle.sheet.specs.Tree.{shape_table, shape_of};

use sheet::form::{Field, Shape, Sort};

// By the place in StmtKind, eight below each comment. A statement is told by its number: an enum would need 72 arms to be read.
const SHAPES: &[Shape] = &[
    // Auto, Beep, Box, Call, Circle, Clear, Close, Cls
    Shape::Rem,
    Shape::Op0,
    Shape::Draw,
    Shape::Op1,
    Shape::Draw,
    Shape::Op0,
    Shape::Op1,
    Shape::Op0,
    // Cont, Copy, Data, Def, Del, Dim, Draw, Edit
    Shape::Op0,
    Shape::Rem,
    Shape::Data,
    Shape::Def,
    Shape::Rem,
    Shape::Dim,
    Shape::Draw,
    Shape::Rem,
    // Ellipse, End, Field, Files, Flash, For, Get, GoSub
    Shape::Draw,
    Shape::Op0,
    Shape::Field,
    Shape::Rem,
    Shape::Op0,
    Shape::For,
    Shape::Op2,
    Shape::GoSub,
    // GoTo, Graph, If, InKey, Input, Inverse, Kill, Let
    Shape::GoTo,
    Shape::Op0,
    Shape::If,
    Shape::Op0,
    Shape::Input,
    Shape::Op0,
    Shape::Rem,
    Shape::Let,
    // Line, List, Load, Locate, LSet, New, Next, Normal
    Shape::Draw,
    Shape::Rem,
    Shape::Load,
    Shape::Locate,
    Shape::Set,
    Shape::Rem,
    Shape::Next,
    Shape::Op0,
    // NoTrace, On, Open, Paint, Play, Poke, Pop, Print
    Shape::Op0,
    Shape::On,
    Shape::Open,
    Shape::Draw,
    Shape::Op1,
    Shape::Op2,
    Shape::Op0,
    Shape::Print,
    // Put, Read, Rem, Rename, Restore, Return, RSet, Run
    Shape::Op2,
    Shape::Read,
    Shape::Rem,
    Shape::Rem,
    Shape::Restore,
    Shape::Op0,
    Shape::Set,
    Shape::Run,
    // Save, Stop, Swap, System, Text, Trace, Wend, While
    Shape::Rem,
    Shape::Rem,
    Shape::Swap,
    Shape::System,
    Shape::Op0,
    Shape::Op0,
    Shape::Op0,
    Shape::While,
    // Write, Sleep, Fputc, Fread, Fwrite, Fseek, DebugPrint, NoOp
    Shape::Write,
    Shape::Op1,
    Shape::Op2,
    Shape::Op3,
    Shape::Op3,
    Shape::Op2,
    Shape::Op1,
    Shape::NoOp,
];

fn shapes() -> &'static [Shape]
    ensures { result.now ≡ shape_table }
{
    SHAPES
}

#[tactic(auto, unfolding(sheet::specs::Tree::shape_of))]
pub fn shape_of(k: u32) -> Shape
    ensures { result ≡ shape_of k }
{
    shapes().get(k as usize).copied().unwrap_or(Shape::NoOp)
}

// What a node has behind its own range.
#[tactic(auto, using(sheet::proofs::Shapes::fields_rule))]
pub fn fields_of(c: Sort, k: u32) -> &'static [Field]
    ensures { result.now ≡ fields_of c k }
{
    match c {
        Sort::Stmt => sheet::form::shape_fields(shape_of(k)),
        Sort::Expr | Sort::Place | Sort::InputPlace => sheet::form::expr_fields(k),
    }
}

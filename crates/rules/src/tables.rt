// What the statements and functions want: the tables of compile_stmt and compile_sys_func_call of compiler.rs.
ghost use Rattle.std.specs.Prelude.{◌≡◌, ◌==◌, length, map};
ghost use Rattle.recorder.specs.Word.{either};
ghost use Rattle.rules.specs.Tables.{signatures, signature_of, wanted, tab, spc, draw_arity, operand};
ghost use Rattle.rules.specs.Wants.{signature_for, wanted_by};

use crate::types::Type;

// Places in StmtKind: the drawing statements, and those whose operands are no numbers. Statements, functions and operators have a name
// where one is looked for: an enum of 72 statements would need as many arms to be read.
const BOX: u32 = 2;

const CIRCLE: u32 = 4;

const DRAW: u32 = 14;

const ELLIPSE: u32 = 16;

const LINE: u32 = 32;

const PLAY: u32 = 44;

const FPUTC: u32 = 66;

const DEBUG_PRINT: u32 = 70;

// Places in SysFuncKind.
const TAB: u32 = 27;

pub const SPC: u32 = 28;

// A place in BinaryOpKind: Eq, Ne, Gt, Lt, Ge and Le come before Add, the operators of numbers alone behind it.
pub const ADD: u32 = 6;

// The signatures that functions have.
#[derive(Clone, Copy)]
pub enum Sig {
    RealOfReal,
    RealOfText,
    TextOfReal,
    TextPart,
    Mid,
    Point,
}

// How many arguments a draw statement wants at least, and at most.
#[derive(Clone, Copy)]
pub struct Arity {
    pub min: u32,
    pub max: u32,
}

// Which kinds the arguments of a list are to have: a function's, numbers however many, a draw statement's, or those of a statement's
// operands. An enum and no closure: compile_args is in a cycle of calls, and its clause says by cases which kind is wanted.
#[derive(Clone, Copy)]
pub enum Wants {
    Func(u32),
    Every,
    Draw(u32),
    Operands(u32),
}

// By the place in SysFuncKind, eight below each comment.
const SIGS: &[Sig] = &[
    // Abs, Asc, Atn, Chr, Cos, Cvi, Cvs, Eof
    Sig::RealOfReal,
    Sig::RealOfText,
    Sig::RealOfReal,
    Sig::TextOfReal,
    Sig::RealOfReal,
    Sig::RealOfText,
    Sig::RealOfText,
    Sig::RealOfReal,
    // Exp, Int, Left, Len, Lof, Log, Mid, Mki
    Sig::RealOfReal,
    Sig::RealOfReal,
    Sig::TextPart,
    Sig::RealOfText,
    Sig::RealOfReal,
    Sig::RealOfReal,
    Sig::Mid,
    Sig::TextOfReal,
    // Mks, Peek, Pos, Right, Rnd, Sgn, Sin, Sqr
    Sig::TextOfReal,
    Sig::RealOfReal,
    Sig::RealOfReal,
    Sig::TextPart,
    Sig::RealOfReal,
    Sig::RealOfReal,
    Sig::RealOfReal,
    Sig::RealOfReal,
    // Str, Tan, Val, Tab, Spc, Point, CheckKey, Fopen
    Sig::TextOfReal,
    Sig::RealOfReal,
    Sig::RealOfText,
    Sig::RealOfReal,
    Sig::RealOfReal,
    Sig::Point,
    Sig::RealOfReal,
    Sig::RealOfReal,
    // Fgetc, Ftell
    Sig::RealOfReal,
    Sig::RealOfReal,
];

fn sigs() -> &'static [Sig]
    ensures { map signature_for result.now ≡ signatures }
{
    SIGS
}

impl Sig {
    // A function's signature, by its place in SysFuncKind.
    #[tactic(auto, unfolding(crate::specs::Tables::signature_of))]
    pub fn of_function(k: u32) -> Sig
        ensures { signature_for result ≡ signature_of k }
    {
        sigs().get(k as usize).copied().unwrap_or(Sig::RealOfReal)
    }

    // How many arguments a function wants at least, and at most, and below what it gives: three matches over six signatures; as structs
    // they would be six constants of three fields.
    pub fn min_args(self) -> u32
        ensures { result ≡ (signature_for self).min }
    {
        match self {
            Sig::RealOfReal | Sig::RealOfText | Sig::TextOfReal => 1,
            Sig::TextPart | Sig::Mid | Sig::Point => 2,
        }
    }

    pub fn max_args(self) -> u32
        ensures { result ≡ length (signature_for self).args }
    {
        match self {
            Sig::RealOfReal | Sig::RealOfText | Sig::TextOfReal => 1,
            Sig::TextPart | Sig::Point => 2,
            Sig::Mid => 3,
        }
    }

    pub fn result_type(self) -> Type
        ensures { result ≡ (signature_for self).result }
    {
        match self {
            Sig::RealOfReal | Sig::RealOfText | Sig::Point => Type::Real,
            Sig::TextOfReal | Sig::TextPart | Sig::Mid => Type::String,
        }
    }

    // Numbers, but for a text that comes first in some; beyond the last argument anything.
    fn arg_type(self, i: u32) -> Type
        ensures { result ≡ wanted (signature_for self).args i }
    {
        if self.max_args() <= i {
            return Type::Error;
        }
        match self {
            Sig::RealOfText | Sig::TextPart | Sig::Mid if i == 0 => Type::String,
            _ => Type::Real,
        }
    }
}

#[tactic(auto, unfolding(crate::specs::Tables::draw_arity))]
pub fn draw_arity(k: u32) -> Arity
    ensures { result ≡ draw_arity k }
{
    let (min, max) = match k {
        BOX | ELLIPSE => (4, 6),
        CIRCLE => (3, 5),
        DRAW => (2, 3),
        LINE => (4, 5),
        _ => (5, 6),
    };
    Arity { min, max }
}

// The kind of the i-th operand of a statement of one, two or three: a text in three of them, where a table would have 72 rows.
#[tactic(auto, unfolding(crate::specs::Tables::operand))]
pub fn operand_type(k: u32, i: u32) -> Type
    ensures { result ≡ operand k i }
{
    match (k, i) {
        (PLAY | DEBUG_PRINT, _) | (FPUTC, 1) => Type::String,
        _ => Type::Real,
    }
}

// TAB and SPC, which stand in PRINT alone.
pub fn is_tab_or_spc(k: u32) -> bool
    ensures { result ≡ either (k == tab) (k == spc) }
{
    matches!(k, TAB | SPC)
}

impl Wants {
    // The kind that the i-th argument of a list is to have.
    pub fn want(self, i: u32) -> Type
        ensures { result ≡ wanted_by self i }
    {
        match self {
            Wants::Func(k) => Sig::of_function(k).arg_type(i),
            Wants::Every => Type::Real,
            Wants::Draw(k) => {
                if i < draw_arity(k).max {
                    Type::Real
                } else {
                    Type::Error
                }
            }
            Wants::Operands(k) => operand_type(k, i),
        }
    }
}

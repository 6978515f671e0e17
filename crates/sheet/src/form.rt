// The form of the sheet: what may stand at a place of it, and what reading there finds.
ghost use Rattle.std.specs.Prelude.{◌≡◌};
ghost use Rattle.sheet.specs.declared.form.Refusal.TheVariants.{Offends};
ghost use Rattle.sheet.specs.Table.{kind_number, node_kind, may_stand, own_range, is_fseek, expr_fields};
ghost use Rattle.sheet.specs.Kinds.{expr_kind, source_kind, element_kind};
ghost use Rattle.sheet.specs.Shapes.{shape_fields};
ghost use Rattle.sheet.specs.Check.{offence_number, offence_place, refusal_number, refusal_place};

use recorder::number::LABEL_SIZE;

// The kinds of the sheet's words, by document 01's numbers. A place is one in SysFuncKind, BinaryOpKind or UnaryOpKind; the value of
// a number literal is an exponent and the two halves of a mantissa.
#[derive(Clone, Copy, PartialEq, Eq)]
pub enum Kind {
    Range = 1,
    Absent = 2,
    Label = 3,
    Count = 4,
    Flag = 5,
    Mode = 6,
    Source = 7,
    Element = 8,
    Place = 9,
    Exponent = 10,
    Mantissa = 11,
    Program = 15,
    Line = 16,
    Stmt = 32,
    Expr = 33,
}

// The cases of an expression, in the order of their numbers. Functions take a case by its number, which their clauses name, and read it
// by `of`; may_stand has to, since `of` takes what is no case for Error.
#[derive(Clone, Copy, PartialEq, Eq)]
pub enum ExprKind {
    Ident,
    StringLit,
    NumberLit,
    SysFuncCall,
    UserFuncCall,
    Binary,
    Unary,
    Index,
    Inkey,
    Error,
}

// What INPUT reads from, in the order of their numbers.
#[derive(Clone, Copy, PartialEq, Eq)]
pub enum SourceKind {
    Keyboard,
    KeyboardWithPrompt,
    File,
}

// What stands in a PRINT, in the order of their numbers.
#[derive(Clone, Copy, PartialEq, Eq)]
pub enum ElementKind {
    Expr,
    Comma,
    Semicolon,
}

// Which statements or expressions may stand at a place.
#[derive(Clone, Copy, PartialEq, Eq)]
pub enum Sort {
    Expr,
    Place,
    InputPlace,
    Stmt,
}

// What a field may hold: nothing, a word of a kind with a payload below a number, a range, a name's range, absent or a
// name's range, a range with a unit, a statement or an expression, a number's value, absent or a label, INPUT's source,
// PRINT's element, a datum. Nothing takes no word, so a field of one item needs no case of its own; an Option would bring one.
#[derive(Clone, Copy, PartialEq, Eq)]
pub enum Item {
    Nothing,
    Word(Kind, u32),
    Range,
    Name,
    OptionalName,
    Text,
    Node(Sort),
    Number,
    OptionalLabel,
    Source,
    Element,
    Datum,
}

// How often: once, absent or once, a count and so many, a count of at least one, absent or a count.
#[derive(Clone, Copy, PartialEq, Eq)]
pub enum Times {
    Once,
    Optional,
    List,
    NonEmpty,
    OptionalList,
}

// A field of a statement or an expression: one item or two, so many times.
#[derive(Clone, Copy, PartialEq, Eq)]
pub struct Field {
    pub times: Times,
    pub first: Item,
    pub second: Item,
}

// The offences 4 to 8 of document 01, each with its place.
#[derive(Clone, Copy, PartialEq, Eq)]
pub enum Offence {
    BadWord(usize),
    TooDeep(usize),
    BadLength(usize),
    BadRange(usize),
    Fseek(usize),
}

// What a walk over a part of the sheet finds: the place behind it, or the first offence.
pub type Walk = Result<usize, Offence>;

// The refusals of document 01: 1 to 3, an offence, 9 to 11.
#[derive(Clone, Copy, PartialEq, Eq)]
pub enum Refusal {
    TooLong,
    Surrogate,
    WorkTooShort,
    Offends(Offence),
    ListTooShort,
    NotesTooShort,
    BookTooShort,
}

// What statements of one shape have in common: their fields, and how they are compiled.
#[derive(Clone, Copy, PartialEq, Eq)]
pub enum Shape {
    Rem,
    NoOp,
    Op0,
    Run,
    Op1,
    Op2,
    Op3,
    Draw,
    Set,
    Data,
    Def,
    Dim,
    Field,
    For,
    GoSub,
    GoTo,
    If,
    Input,
    Let,
    Load,
    Locate,
    Next,
    On,
    Open,
    Print,
    Read,
    Restore,
    Swap,
    System,
    While,
    Write,
}

// Where a line's units lie in the text: they begin at base, and are so many. No slice: the definitions of the form read the whole text,
// by the line's places in it.
#[derive(Clone, Copy, PartialEq, Eq)]
pub struct Line {
    pub base: usize,
    pub len: usize,
}

// A line of a sheet that is being read: the sheet's words, the text, and where the line's units lie in it.
#[derive(Clone, Copy)]
pub struct LineForm<'a> {
    pub sheet: &'a [u32],
    pub text: &'a [u16],
    pub line: Line,
}

// How many cases SysFuncKind and BinaryOpKind have.
pub const FUNCTIONS: u32 = 34;

pub const BINARY_OPS: u32 = 13;

// The fields that statements and expressions are made of.
const EXPR: Field = Field {
    times: Times::Once,
    first: Item::Node(Sort::Expr),
    second: Item::Nothing,
};

const EXPRS: Field = Field {
    times: Times::NonEmpty,
    first: Item::Node(Sort::Expr),
    second: Item::Nothing,
};

const OPTIONAL_EXPR: Field = Field {
    times: Times::Optional,
    first: Item::Node(Sort::Expr),
    second: Item::Nothing,
};

const PLACE: Field = Field {
    times: Times::Once,
    first: Item::Node(Sort::Place),
    second: Item::Nothing,
};

const PLACES: Field = Field {
    times: Times::NonEmpty,
    first: Item::Node(Sort::Place),
    second: Item::Nothing,
};

const INPUT_PLACES: Field = Field {
    times: Times::NonEmpty,
    first: Item::Node(Sort::InputPlace),
    second: Item::Nothing,
};

const RANGE: Field = Field {
    times: Times::Once,
    first: Item::Range,
    second: Item::Nothing,
};

const NAME: Field = Field {
    times: Times::Once,
    first: Item::OptionalName,
    second: Item::Nothing,
};

const NAMES: Field = Field {
    times: Times::List,
    first: Item::OptionalName,
    second: Item::Nothing,
};

const NUMBER: Field = Field {
    times: Times::Once,
    first: Item::Number,
    second: Item::Nothing,
};

const SYS_FUNC: Field = Field {
    times: Times::Once,
    first: Item::Word(Kind::Place, FUNCTIONS),
    second: Item::Nothing,
};

const BINARY_OP: Field = Field {
    times: Times::Once,
    first: Item::Word(Kind::Place, BINARY_OPS),
    second: Item::Nothing,
};

const UNARY_OP: Field = Field {
    times: Times::Once,
    first: Item::Word(Kind::Place, 3),
    second: Item::Nothing,
};

const FLAG: Field = Field {
    times: Times::Once,
    first: Item::Word(Kind::Flag, 2),
    second: Item::Nothing,
};

const MODE: Field = Field {
    times: Times::Once,
    first: Item::Word(Kind::Mode, 6),
    second: Item::Nothing,
};

const DATA: Field = Field {
    times: Times::NonEmpty,
    first: Item::Datum,
    second: Item::Nothing,
};

const SOURCE: Field = Field {
    times: Times::Once,
    first: Item::Source,
    second: Item::Nothing,
};

const ELEMENTS: Field = Field {
    times: Times::List,
    first: Item::Element,
    second: Item::Nothing,
};

const STMTS: Field = Field {
    times: Times::List,
    first: Item::Node(Sort::Stmt),
    second: Item::Nothing,
};

const OPTIONAL_STMTS: Field = Field {
    times: Times::OptionalList,
    first: Item::Node(Sort::Stmt),
    second: Item::Nothing,
};

const TARGET: Field = Field {
    times: Times::Optional,
    first: Item::Range,
    second: Item::Word(Kind::Label, LABEL_SIZE),
};

const TARGETS: Field = Field {
    times: Times::NonEmpty,
    first: Item::Range,
    second: Item::OptionalLabel,
};

const SPECS: Field = Field {
    times: Times::NonEmpty,
    first: Item::Node(Sort::Expr),
    second: Item::Node(Sort::Place),
};

const RECORD_LEN: Field = Field {
    times: Times::Optional,
    first: Item::Range,
    second: Item::Node(Sort::Expr),
};

const VALUES: Field = Field {
    times: Times::NonEmpty,
    first: Item::Node(Sort::Expr),
    second: Item::Word(Kind::Flag, 2),
};

// FSEEK's place in StmtKind, the only one asked for by name in the form: an enum of 72 cases for it would be no plainer.
const FSEEK: u32 = 69;

// The three readings are named of and are no From: what is no case is taken for the last one, which from would hide.
impl ExprKind {
    // The case of a number; what is no case is Error.
    #[inline(always)]
    #[tactic(auto, unfolding(crate::specs::Kinds::expr_kind))]
    pub fn of(k: u32) -> ExprKind
        ensures { result ≡ expr_kind k }
    {
        match k {
            0 => ExprKind::Ident,
            1 => ExprKind::StringLit,
            2 => ExprKind::NumberLit,
            3 => ExprKind::SysFuncCall,
            4 => ExprKind::UserFuncCall,
            5 => ExprKind::Binary,
            6 => ExprKind::Unary,
            7 => ExprKind::Index,
            8 => ExprKind::Inkey,
            _ => ExprKind::Error,
        }
    }
}

impl SourceKind {
    // The source of a number; every larger one is File.
    #[inline(always)]
    #[tactic(auto, unfolding(crate::specs::Kinds::source_kind))]
    pub fn of(k: u32) -> SourceKind
        ensures { result ≡ source_kind k }
    {
        match k {
            0 => SourceKind::Keyboard,
            1 => SourceKind::KeyboardWithPrompt,
            _ => SourceKind::File,
        }
    }
}

impl ElementKind {
    // The element of a number; every larger one is Semicolon.
    #[inline(always)]
    #[tactic(auto, unfolding(crate::specs::Kinds::element_kind))]
    pub fn of(k: u32) -> ElementKind
        ensures { result ≡ element_kind k }
    {
        match k {
            0 => ElementKind::Expr,
            1 => ElementKind::Comma,
            _ => ElementKind::Semicolon,
        }
    }
}

// The fields of a case of ExprKind, by its number.
#[tactic(auto, using(crate::proofs::Cases::fields_rule))]
pub fn expr_fields(k: u32) -> &'static [Field]
    ensures { result.now ≡ expr_fields k }
{
    match ExprKind::of(k) {
        ExprKind::NumberLit => &[NUMBER],
        ExprKind::SysFuncCall => &[RANGE, SYS_FUNC, EXPRS],
        ExprKind::UserFuncCall => &[NAME, EXPR],
        ExprKind::Binary => &[EXPR, RANGE, BINARY_OP, EXPR],
        ExprKind::Unary => &[RANGE, UNARY_OP, EXPR],
        ExprKind::Index => &[NAME, EXPRS],
        ExprKind::Ident | ExprKind::StringLit | ExprKind::Inkey | ExprKind::Error => &[],
    }
}

// The fields of the statements of a shape.
pub fn shape_fields(s: Shape) -> &'static [Field]
    ensures { result.now ≡ shape_fields s }
{
    match s {
        Shape::NoOp | Shape::Op0 | Shape::System => &[],
        Shape::Rem | Shape::Run => &[RANGE],
        Shape::Op1 | Shape::While => &[EXPR],
        Shape::Op2 => &[EXPR, EXPR],
        Shape::Op3 => &[EXPR, EXPR, EXPR],
        Shape::Draw | Shape::Dim | Shape::Load => &[EXPRS],
        Shape::Set | Shape::Let => &[PLACE, EXPR],
        Shape::Data => &[DATA],
        Shape::Def => &[NAME, NAME, EXPR],
        Shape::Field => &[EXPR, SPECS],
        Shape::For => &[NAME, EXPR, EXPR, OPTIONAL_EXPR],
        Shape::GoSub | Shape::Restore => &[TARGET],
        Shape::GoTo => &[FLAG, TARGET],
        Shape::If => &[EXPR, STMTS, OPTIONAL_STMTS],
        Shape::Input => &[SOURCE, INPUT_PLACES],
        Shape::Locate => &[OPTIONAL_EXPR, OPTIONAL_EXPR],
        Shape::Next => &[NAMES],
        Shape::On => &[EXPR, TARGETS, FLAG],
        Shape::Open => &[EXPR, MODE, EXPR, RECORD_LEN],
        Shape::Print => &[ELEMENTS],
        Shape::Read => &[PLACES],
        Shape::Swap => &[PLACE, PLACE],
        Shape::Write => &[OPTIONAL_EXPR, VALUES],
    }
}

// The kind of the first word of what may stand at a place; no From, since Kind::from(c) would not say of which word.
pub fn node_kind(c: Sort) -> Kind
    ensures { kind_number result ≡ node_kind c }
{
    match c {
        Sort::Stmt => Kind::Stmt,
        Sort::Expr | Sort::Place | Sort::InputPlace => Kind::Expr,
    }
}

// Which cases may stand at a place. c is what the place takes and k what the sheet has there, so no struct holds both.
#[tactic(auto, using(crate::proofs::Cases::place_rule, crate::proofs::Cases::input_rule))]
pub fn may_stand(c: Sort, k: u32) -> bool
    ensures { result ≡ may_stand c k }
{
    match c {
        Sort::Expr => k < 10,
        Sort::Place => {
            k < 10
                && matches!(
                    ExprKind::of(k),
                    ExprKind::Ident | ExprKind::Index | ExprKind::Error
                )
        }
        Sort::InputPlace => {
            k < 10
                && matches!(
                    ExprKind::of(k),
                    ExprKind::Ident | ExprKind::UserFuncCall | ExprKind::Index | ExprKind::Error
                )
        }
        Sort::Stmt => k < 72,
    }
}

// What a node's own range is: by sort and case, so it is no From of either.
#[tactic(auto, using(crate::proofs::Cases::range_rule))]
pub fn own_range(c: Sort, k: u32) -> Item
    ensures { result ≡ own_range c k }
{
    match (c, ExprKind::of(k)) {
        (Sort::Stmt, _) => Item::Range,
        (_, ExprKind::Ident) => Item::Name,
        (_, ExprKind::StringLit) => Item::Text,
        _ => Item::Range,
    }
}

pub fn is_fseek(c: Sort, k: u32) -> bool
    ensures { result ≡ is_fseek c k }
{
    c == Sort::Stmt && k == FSEEK
}

impl Offence {
    // Document 01's number of an offence, which is no discriminant: an offence holds its place.
    pub fn number(self) -> u32
        ensures { result ≡ offence_number self }
    {
        match self {
            Offence::BadWord(_) => 4,
            Offence::TooDeep(_) => 5,
            Offence::BadLength(_) => 6,
            Offence::BadRange(_) => 7,
            Offence::Fseek(_) => 8,
        }
    }

    // The offending word's place, or the sheet's length.
    pub fn place(self) -> usize
        ensures { result ≡ offence_place self }
    {
        let (Offence::BadWord(p)
        | Offence::TooDeep(p)
        | Offence::BadLength(p)
        | Offence::BadRange(p)
        | Offence::Fseek(p)) = self;
        p
    }
}

impl From<Offence> for Refusal {
    ghost from_gives = { λ o r. r ≡ Offends o };

    fn from(o: Offence) -> Self {
        Refusal::Offends(o)
    }
}

impl Refusal {
    // Document 01's number of a refusal, which is no discriminant: the offences are among them.
    pub fn number(self) -> u32
        ensures { result ≡ refusal_number self }
    {
        match self {
            Refusal::TooLong => 1,
            Refusal::Surrogate => 2,
            Refusal::WorkTooShort => 3,
            Refusal::Offends(o) => o.number(),
            Refusal::ListTooShort => 9,
            Refusal::NotesTooShort => 10,
            Refusal::BookTooShort => 11,
        }
    }

    // The place of a refusal: by document 01 a number, and 0 for all but the offences.
    pub fn place(self) -> usize
        ensures { result ≡ refusal_place self }
    {
        match self {
            Refusal::Offends(o) => o.place(),
            _ => 0,
        }
    }
}

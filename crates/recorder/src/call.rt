// The numbered calls of document 01 and the classes of its notes, by name.
ghost use Rattle.std.specs.Prelude.{◌≡◌};
ghost use Rattle.recorder.specs.CallNumbers.{waiting, numbers_of, class_number, severity_of};

use crate::label::Label;
use crate::word::{Range, packed};

// What is not yet known of a record, all ones by document 01: a target, a WHILE's or a DEF's end.
pub const UNKNOWN: u32 = u32::MAX;

// The numbers of calls that are looked for in a list: an enum would be a second list of the calls beside Call.
pub const OP: u8 = 2;

pub const NUMBER: u8 = 3;

pub const VAR: u8 = 5;

pub const GOTO: u8 = 20;

pub const GOSUB: u8 = 21;

pub const FOR: u8 = 23;

pub const NEXT: u8 = 24;

pub const WHILE: u8 = 25;

pub const RESTORE: u8 = 31;

// A call and what it says; `numbers` names each part. A jump or a RESTORE that waits has its label and the range of a note on it; an
// IF's jump, and a RESTORE without a label, has none. NEXT's symbol is plus 1, or 0, and no Option: `numbers` would add the 1 to any
// u32, where it could overflow. Statements, functions, operators and modes are the sheet's numbers, also one that names none.
#[derive(Clone, Copy)]
pub enum Call {
    NoOp,
    Op(u32, u32),
    Number(u32, u32),
    String(u32, u32),
    Var(u32),
    Index(u32, u32),
    VarLvalue(u32),
    IndexLvalue(u32, u32),
    FnLvalue(u32, u32),
    Inkey,
    SysFuncCall(u32, u32),
    UserFuncCall(u32),
    UnaryExpr(u32),
    NumBinaryExpr(u32),
    StrBinaryExpr(u32),
    AssignInt,
    AssignReal,
    AssignStr,
    Jz,
    Goto(Option<(Range, Label)>),
    Gosub(Option<(Range, Label)>),
    On(u32),
    For(u32, bool),
    Next(u32),
    While(u32),
    BeginDefFn(u32, u32),
    EndDefFn,
    Dim(u32, u32),
    Field(u32),
    Read,
    Restore(Option<(Range, Label)>),
    KeyboardInput(bool, u32),
    FileInput(u32),
    Open(u32, bool),
    LoadBytes(u32, u32),
    SetRow,
    SetColumn,
    PrintNum,
    PrintStr,
    PrintSpc,
    PrintTab,
    Newline,
    Flush,
    WriteNum(bool, bool),
    WriteStr(bool, bool),
    PopNum,
    PopStr,
}

// The number of a call and its three arguments, 0 where unused.
#[derive(Clone, Copy)]
pub struct Numbers {
    pub call: u8,
    pub a: u32,
    pub b: u32,
    pub c: u32,
}

#[inline(always)]
fn row(call: u8, a: u32, b: u32, c: u32) -> Numbers
    ensures { result ≡ record { call = call; a = a; b = b; c = c } }
{
    Numbers { call, a, b, c }
}

// One that waits keeps its label plus 1 and the packed range, until closing up settles it.
#[inline(always)]
fn waiting(call: u8, a: u32, label: Option<(Range, Label)>) -> Numbers
    ensures { result ≡ waiting call a label }
{
    match label {
        Some((r, l)) => row(call, a, u32::from(l.0) + 1, packed(r)),
        None => row(call, a, 0, 0),
    }
}

impl Call {
    // Each call's own number and parts, said here alone: an enum whose variants have parts takes no numbers.
    #[inline(always)]
    pub fn numbers(self) -> Numbers
        ensures { result ≡ numbers_of self }
    {
        match self {
            Call::NoOp => row(1, 0, 0, 0),
            Call::Op(statement, count) => row(OP, statement, count, 0),
            Call::Number(e, m) => row(NUMBER, e, m, 0),
            Call::String(start, length) => row(4, start, length, 0),
            Call::Var(symbol) => row(VAR, symbol, 0, 0),
            Call::Index(symbol, k) => row(6, symbol, k, 0),
            Call::VarLvalue(symbol) => row(7, symbol, 0, 0),
            Call::IndexLvalue(symbol, k) => row(8, symbol, k, 0),
            Call::FnLvalue(function, argument) => row(9, function, argument, 0),
            Call::Inkey => row(10, 0, 0, 0),
            Call::SysFuncCall(kind, count) => row(11, kind, count, 0),
            Call::UserFuncCall(symbol) => row(12, symbol, 0, 0),
            Call::UnaryExpr(op) => row(13, op, 0, 0),
            Call::NumBinaryExpr(op) => row(14, op, 0, 0),
            Call::StrBinaryExpr(op) => row(15, op, 0, 0),
            Call::AssignInt => row(16, 0, 0, 0),
            Call::AssignReal => row(17, 0, 0, 0),
            Call::AssignStr => row(18, 0, 0, 0),
            Call::Jz => row(19, UNKNOWN, 0, 0),
            Call::Goto(label) => waiting(GOTO, UNKNOWN, label),
            Call::Gosub(label) => waiting(GOSUB, UNKNOWN, label),
            Call::On(count) => row(22, count, 0, 0),
            Call::For(symbol, step) => row(FOR, symbol, u32::from(step), 0),
            Call::Next(symbol) => row(NEXT, symbol, 0, 0),
            Call::While(start) => row(WHILE, start, UNKNOWN, 0),
            Call::BeginDefFn(name, parameter) => row(26, name, parameter, UNKNOWN),
            Call::EndDefFn => row(27, 0, 0, 0),
            Call::Dim(symbol, k) => row(28, symbol, k, 0),
            Call::Field(count) => row(29, count, 0, 0),
            Call::Read => row(30, 0, 0, 0),
            Call::Restore(label) => waiting(RESTORE, 0, label),
            Call::KeyboardInput(prompt, count) => row(32, u32::from(prompt), count, 0),
            Call::FileInput(count) => row(33, count, 0, 0),
            Call::Open(mode, len) => row(34, mode, u32::from(len), 0),
            Call::LoadBytes(first, count) => row(35, first, count, 0),
            Call::SetRow => row(36, 0, 0, 0),
            Call::SetColumn => row(37, 0, 0, 0),
            Call::PrintNum => row(38, 0, 0, 0),
            Call::PrintStr => row(39, 0, 0, 0),
            Call::PrintSpc => row(40, 0, 0, 0),
            Call::PrintTab => row(41, 0, 0, 0),
            Call::Newline => row(42, 0, 0, 0),
            Call::Flush => row(43, 0, 0, 0),
            Call::WriteNum(file, end) => row(44, u32::from(file), u32::from(end), 0),
            Call::WriteStr(file, end) => row(45, u32::from(file), u32::from(end), 0),
            Call::PopNum => row(46, 0, 0, 0),
            Call::PopStr => row(47, 0, 0, 0),
        }
    }
}

// What a note is about, by document 01's numbers.
#[derive(Clone, Copy)]
pub enum Class {
    LabelsNotRising = 1,
    TargetMissing = 2,
    RestoreTargetMissing = 3,
    KindsDiffer = 4,
    NameOfWrongKind = 5,
    TooFewArguments = 6,
    TooManyArguments = 7,
    TextTooLong = 8,
    NumberTooLarge = 9,
    BlankInName = 10,
    ValueDropped = 11,
    NotAllowed = 12,
    WhileWithoutWend = 13,
}

impl Class {
    pub fn number(self) -> u8
        ensures { result ≡ class_number self }
    {
        self as u8
    }

    // 1 error or 2 warning, document 01's numbers, said here alone: put_note writes it at once, so an enum would be turned into it where
    // it is made.
    pub fn severity(self) -> u32
        ensures { result ≡ severity_of self }
    {
        match self {
            Class::RestoreTargetMissing | Class::BlankInName | Class::ValueDropped => 2,
            _ => 1,
        }
    }
}

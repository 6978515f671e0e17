// The fields of statements, by a function for each shape that has more than one; the table of the form is the definition that
// they follow.
// left falls at each node and at is what the call before gave, so neither is in form: it would be made anew for each call.
#![tactic(auto, unfolding(sheet::specs::Form::fields_form, sheet::specs::Form::field_form, sheet::specs::Form::times_form, sheet::specs::Form::pair_form, sheet::specs::Form::item_form), using(accept_exprs::proofs::Fields::one_is, accept_exprs::proofs::Fields::last_is, walk::proofs::Lines::then_behind, walk::proofs::Lines::alone))]

ghost use Rattle.std.specs.Prelude.{◌≡◌};
ghost use Rattle.sheet.specs.declared.form.Item.TheVariants.{Range as range, Source as source, Element as element};
ghost use Rattle.sheet.specs.declared.form.Shape.TheVariants.{Op2, Op3, Set, Def, Field, For, GoTo, If, Input, Locate, On, Open, Swap, Write};
ghost use Rattle.sheet.specs.Table.{expr, optional₂};
ghost use Rattle.sheet.specs.Shapes.{shape_fields};
ghost use Rattle.accept_exprs.specs.Read.{item_in, field_in, fields_in};

use crate::list::{list_form, some_form};
use accept_exprs::expr::{expr_form, exprs_form, optional_expr_form, place_form};
use recorder::word::payload_at;
use sheet::form::{ElementKind, Kind, LineForm, Shape, Sort, SourceKind, Walk};
use sheet::leaf::{absent_form, is_absent, optional_label_form, take_word};

// GET, PUT, POKE, FPUTC: two expressions. two_form, swap_form and locate_form differ in what they read: a function over that would take
// a closure, and be no shorter.
fn two_form(form: &LineForm, left: usize, at: usize) -> Walk
    ensures { result ≡ fields_in form.now left (shape_fields Op2) at }
{
    let p = expr_form(form, left, at)?;
    expr_form(form, left, p)
}

// FREAD, FWRITE: three.
fn three_form(form: &LineForm, left: usize, at: usize) -> Walk
    ensures { result ≡ fields_in form.now left (shape_fields Op3) at }
{
    let p = expr_form(form, left, at)?;
    two_form(form, left, p)
}

// LET, LSET, RSET: a place and its value.
fn set_form(form: &LineForm, left: usize, at: usize) -> Walk
    ensures { result ≡ fields_in form.now left (shape_fields Set) at }
{
    let p = place_form(form, left, Sort::Place, at)?;
    expr_form(form, left, p)
}

// SWAP: two places.
fn swap_form(form: &LineForm, left: usize, at: usize) -> Walk
    ensures { result ≡ fields_in form.now left (shape_fields Swap) at }
{
    let p = place_form(form, left, Sort::Place, at)?;
    place_form(form, left, Sort::Place, p)
}

// DEF: its name, its parameter, its body.
fn def_form(form: &LineForm, left: usize, at: usize) -> Walk
    ensures { result ≡ fields_in form.now left (shape_fields Def) at }
{
    let p = form.optional_name_form(at)?;
    let q = form.optional_name_form(p)?;
    expr_form(form, left, q)
}

// FIELD: a file, then lengths and variables.
fn field_form(form: &LineForm, left: usize, at: usize) -> Walk
    ensures { result ≡ fields_in form.now left (shape_fields Field) at }
{
    let p = expr_form(form, left, at)?;
    some_form(form, p, |q| {
        let v = expr_form(form, left, q)?;
        place_form(form, left, Sort::Place, v)
    })
}

// FOR: its counter, start and end, and a step or none.
fn for_form(form: &LineForm, left: usize, at: usize) -> Walk
    ensures { result ≡ fields_in form.now left (shape_fields For) at }
{
    let p = form.optional_name_form(at)?;
    let q = expr_form(form, left, p)?;
    let e = expr_form(form, left, q)?;
    optional_expr_form(form, left, e)
}

// GOTO: whether the keyword is written, and its target. It has no node, so it is read the same with any depths left.
#[tactic(auto, unfolding(sheet::specs::Form::label_form, sheet::specs::Form::fields_form, sheet::specs::Form::field_form, sheet::specs::Form::times_form, sheet::specs::Form::pair_form, sheet::specs::Form::item_form), using(accept_exprs::proofs::Fields::one_is, accept_exprs::proofs::Fields::last_is, walk::proofs::Lines::then_behind, walk::proofs::Lines::alone))]
fn goto_form(form: &LineForm, at: usize) -> Walk
    ensures { result ≡ fields_in form.now 0 (shape_fields GoTo) at }
{
    let p = take_word(form.sheet, Kind::Flag, 2, at)?;
    form.label_form(p)
}

// INPUT's source: the keyboard, the keyboard and a prompt, or a file.
#[tactic(auto, unfolding(sheet::specs::Form::fields_form, sheet::specs::Form::field_form, sheet::specs::Form::times_form, sheet::specs::Form::pair_form, sheet::specs::Form::item_form), using(sheet::proofs::Cases::keyboard_number, sheet::proofs::Cases::prompt_number, walk::proofs::Skips::file_two, accept_exprs::proofs::Fields::one_is, accept_exprs::proofs::Fields::last_is, walk::proofs::Lines::then_behind, walk::proofs::Lines::alone))]
fn source_form(form: &LineForm, left: usize, at: usize) -> Walk
    ensures { result ≡ item_in form.now left source at }
{
    let p = take_word(form.sheet, Kind::Source, 3, at)?;
    match SourceKind::of(payload_at(form.sheet, at)) {
        SourceKind::Keyboard => Ok(p),
        SourceKind::KeyboardWithPrompt => form.text_form(p),
        SourceKind::File => expr_form(form, left, p),
    }
}

// INPUT: where it reads from, and its places.
fn input_form(form: &LineForm, left: usize, at: usize) -> Walk
    ensures { result ≡ fields_in form.now left (shape_fields Input) at }
{
    let p = source_form(form, left, at)?;
    some_form(form, p, |q| place_form(form, left, Sort::InputPlace, q))
}

// LOCATE: a row and a column, each of which may be absent.
fn locate_form(form: &LineForm, left: usize, at: usize) -> Walk
    ensures { result ≡ fields_in form.now left (shape_fields Locate) at }
{
    let p = optional_expr_form(form, left, at)?;
    optional_expr_form(form, left, p)
}

// ON: its condition, its targets, and whether they are GOSUBs.
fn on_form(form: &LineForm, left: usize, at: usize) -> Walk
    ensures { result ≡ fields_in form.now left (shape_fields On) at }
{
    let p = expr_form(form, left, at)?;
    let q = some_form(form, p, |t| {
        let l = form.range_form(t)?;
        optional_label_form(form.sheet, l)
    })?;
    take_word(form.sheet, Kind::Flag, 2, q)
}

// OPEN's LEN: absent, or a range and an expression. The test for absent stands in each form: absent_form says why.
fn len_form(form: &LineForm, left: usize, at: usize) -> Walk
    ensures { result ≡ field_in form.now left (optional₂ range expr) at }
{
    if is_absent(form.sheet, at) {
        return absent_form(form.sheet, at);
    }
    let p = form.range_form(at)?;
    expr_form(form, left, p)
}

// OPEN: name, mode, file number, LEN.
fn open_form(form: &LineForm, left: usize, at: usize) -> Walk
    ensures { result ≡ fields_in form.now left (shape_fields Open) at }
{
    let p = expr_form(form, left, at)?;
    let q = take_word(form.sheet, Kind::Mode, 6, p)?;
    let e = expr_form(form, left, q)?;
    len_form(form, left, e)
}

// PRINT's element: an expression, or the range of a comma or a semicolon.
#[tactic(auto, unfolding(sheet::specs::Form::fields_form, sheet::specs::Form::field_form, sheet::specs::Form::times_form, sheet::specs::Form::pair_form, sheet::specs::Form::item_form), using(sheet::proofs::Cases::value_number, sheet::proofs::Cases::mark_number, accept_exprs::proofs::Fields::one_is, accept_exprs::proofs::Fields::last_is, walk::proofs::Lines::then_behind, walk::proofs::Lines::alone))]
fn element_form(form: &LineForm, left: usize, at: usize) -> Walk
    ensures { result ≡ item_in form.now left element at }
{
    let p = take_word(form.sheet, Kind::Element, 3, at)?;
    match ElementKind::of(payload_at(form.sheet, at)) {
        ElementKind::Expr => expr_form(form, left, p),
        ElementKind::Comma | ElementKind::Semicolon => form.range_form(p),
    }
}

// WRITE: a file or none, and its values, each with a flag that says whether a comma stands behind it.
fn write_form(form: &LineForm, left: usize, at: usize) -> Walk
    ensures { result ≡ fields_in form.now left (shape_fields Write) at }
{
    let p = optional_expr_form(form, left, at)?;
    some_form(form, p, |q| {
        let v = expr_form(form, left, q)?;
        take_word(form.sheet, Kind::Flag, 2, v)
    })
}

// The fields of a statement of a shape; of an IF only the condition. The arms' functions take parameters
// of their own; a table of function pointers would lose which one is called.
#[tactic(auto, unfolding(sheet::specs::Form::label_form, sheet::specs::Form::fields_form, sheet::specs::Form::field_form, sheet::specs::Form::times_form, sheet::specs::Form::pair_form, sheet::specs::Form::item_form), using(accept_exprs::proofs::Fields::one_is, accept_exprs::proofs::Fields::last_is, walk::proofs::Lines::then_behind, walk::proofs::Lines::alone))]
pub fn plain_form(form: &LineForm, left: usize, s: Shape, at: usize) -> Walk
    ensures { (s ≡ If → ⊥) → result ≡ fields_in form.now left (shape_fields s) at }
{
    match s {
        Shape::NoOp | Shape::Op0 | Shape::System => Ok(at),
        Shape::Rem | Shape::Run => form.range_form(at),
        Shape::Op1 | Shape::While | Shape::If => expr_form(form, left, at),
        Shape::Op2 => two_form(form, left, at),
        Shape::Op3 => three_form(form, left, at),
        Shape::Draw | Shape::Dim | Shape::Load => exprs_form(form, left, at),
        Shape::Set | Shape::Let => set_form(form, left, at),
        Shape::Data => some_form(form, at, |q| form.datum_form(q)),
        Shape::Def => def_form(form, left, at),
        Shape::Field => field_form(form, left, at),
        Shape::For => for_form(form, left, at),
        Shape::GoSub | Shape::Restore => form.label_form(at),
        Shape::GoTo => goto_form(form, at),
        Shape::Input => input_form(form, left, at),
        Shape::Locate => locate_form(form, left, at),
        Shape::Next => list_form(form, at, |q| { form.optional_name_form(q) }),
        Shape::On => on_form(form, left, at),
        Shape::Open => open_form(form, left, at),
        Shape::Print => list_form(form, at, |q| element_form(form, left, q)),
        Shape::Read => some_form(form, at, |q| place_form(form, left, Sort::Place, q)),
        Shape::Swap => swap_form(form, left, at),
        Shape::Write => write_form(form, left, at),
    }
}

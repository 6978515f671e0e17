// The form of statements, lines and the whole sheet, walked directly to its end or its first offence.
// left falls at each node and at is what the call before gave, so neither is in form: it would be made anew for each call.
ghost use Rattle.std.specs.Prelude.{◌≡◌};
ghost use Rattle.sheet.specs.declared.form.Shape.TheVariants.{If};
ghost use Rattle.sheet.specs.Shapes.{shape_fields};
ghost use Rattle.sheet.specs.Form.{line_form, lines_form, sheet_form};
ghost use Rattle.accept_exprs.specs.Read.{node_in, list_in, fields_in};

use accept_exprs::expr::expr_form;
use accept_fields::field::plain_form;
use recorder::number::{DEPTH_LIMIT, PAYLOAD_SIZE};
use recorder::word::payload_at;
use sheet::form::{Kind, Line, LineForm, Offence, Shape, Sort, Walk, is_fseek};
use sheet::leaf::{absent_form, head_form, is_absent, take_word};
use walk::shape::shape_of;
use walk::stmt::{end_form, line_head};

// IF: its condition, its branches. The test for absent stands in each form: absent_form says why.
#[cycle(form_cycle)]
#[tactic(auto, using(crate::proofs::Stmts::if_is))]
fn if_form(form: &LineForm, left: usize, at: usize) -> Walk
    ensures { result ≡ fields_in form.now left (shape_fields If) at }
{
    let p = expr_form(form, left, at)?;
    let q = stmts_form(form, left, p)?;
    if is_absent(form.sheet, q) {
        absent_form(form.sheet, q)
    } else {
        stmts_form(form, left, q)
    }
}

// A statement, with so many depths left, its own among them.
#[cycle(form_cycle)]
#[tactic(auto, unfolding(sheet::specs::Form::node_form), using(crate::proofs::Stmts::stmt_is, crate::proofs::Stmts::stmt_deep))]
fn stmt_form(form: &LineForm, left: usize, at: usize) -> Walk
    ensures { result ≡ node_in form.now left Sort.Stmt at }
{
    let h = head_form(form.sheet, Sort::Stmt, at)?;
    if left == 0 {
        return Err(Offence::TooDeep(at));
    }
    let k = payload_at(form.sheet, at);
    if is_fseek(Sort::Stmt, k) {
        return Err(Offence::Fseek(at));
    }
    let q = form.range_form(h)?;
    match shape_of(k) {
        Shape::If => if_form(form, left - 1, q),
        s => plain_form(form, left - 1, s, q),
    }
}

// A count, and so many statements. A loop of its own beside accept_fields' list_form: the cycle ends since each part stands behind the
// one before, which a closure would not be told.
#[cycle(form_cycle)]
#[tactic(auto, unfolding(sheet::specs::Form::list_form, sheet::specs::Form::repeat_form))]
fn stmts_form(form: &LineForm, left: usize, at: usize) -> Walk
    ensures { result ≡ list_in form.now left (node_in form.now left Sort.Stmt) at }
{
    let mut p = take_word(form.sheet, Kind::Count, PAYLOAD_SIZE, at)?;
    for _ in 0..payload_at(form.sheet, at) {
        p = stmt_form(form, left, p)?;
    }
    Ok(p)
}

// A line: its head, its label, its statements, with all depths left. No LineForm yet: the line's first word says how long it is.
#[tactic(auto, unfolding(sheet::specs::Form::line_form))]
fn line_form(sheet: &[u32], text: &[u16], base: usize, at: usize) -> Walk
    ensures { result ≡ line_form sheet.now text.now base at }
{
    let p = line_head(sheet, text, base, at)?;
    let len = payload_at(sheet, at) as usize;
    let form = LineForm {
        sheet,
        text,
        line: Line { base, len },
    };
    let q = form.label_form(p)?;
    stmts_form(&form, DEPTH_LIMIT, q)
}

// So many lines. sheet and text go by themselves, here and below: each line makes its own LineForm of them.
#[tactic(auto, unfolding(sheet::specs::Form::lines_form), using(walk::proofs::Lines::line_fits))]
fn lines_form(sheet: &[u32], text: &[u16], n: u32, at: usize) -> Walk
    ensures { result ≡ lines_form sheet.now text.now n 0 at }
{
    let mut base = 0;
    let mut p = at;
    for _ in 0..n {
        let q = line_form(sheet, text, base, p)?;
        base += payload_at(sheet, p) as usize;
        p = q;
    }
    end_form(sheet, text, base, p)
}

// A whole sheet: its lines, each with a LineForm of its own.
#[tactic(auto, unfolding(sheet::specs::Form::sheet_form))]
pub fn sheet_form(sheet: &[u32], text: &[u16]) -> Walk
    ensures { result ≡ sheet_form sheet.now text.now }
{
    let p = take_word(sheet, Kind::Program, PAYLOAD_SIZE, 0)?;
    lines_form(sheet, text, payload_at(sheet, 0), p)
}

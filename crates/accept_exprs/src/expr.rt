// The form of expressions, walked directly; the table of the form is the definition that the functions follow.
// left falls at each node and at is what the call before gave, so neither is in form: it would be made anew for each call.
ghost use Rattle.std.specs.Prelude.{◌≡◌};
ghost use Rattle.sheet.specs.declared.form.Kind.TheVariants.{Expr as ExprWord};
ghost use Rattle.sheet.specs.Table.{kind_number, node_kind, expr, non_empty, optional};
ghost use Rattle.accept_exprs.specs.Read.{node_in, field_in};

use crate::leaf::{operator_form, own_form};
use recorder::word::payload_at;
use sheet::form::{BINARY_OPS, ExprKind, FUNCTIONS, LineForm, Offence, Sort, Walk, may_stand};
use sheet::leaf::{absent_form, head_form, is_absent, non_empty_form, number_form};

// A count of at least one, and so many expressions. A loop of its own beside accept_fields' some_form: the cycle ends since each part
// stands behind the one before, which a closure would not be told.
#[inline(always)]
#[cycle(form_cycle)]
#[tactic(auto, unfolding(sheet::specs::Form::field_form, sheet::specs::Form::times_form, sheet::specs::Form::list_form, sheet::specs::Form::repeat_form, sheet::specs::Form::pair_form, sheet::specs::Form::item_form), using(walk::proofs::Lines::then_behind))]
pub fn exprs_form(form: &LineForm, left: usize, at: usize) -> Walk
    ensures { result ≡ field_in form.now left (non_empty expr) at }
{
    let mut p = non_empty_form(form.sheet, at)?;
    for _ in 0..payload_at(form.sheet, at) {
        p = expr_form(form, left, p)?;
    }
    Ok(p)
}

// An expression, with so many depths left, its own among them.
#[cycle(form_cycle)]
#[tactic(auto, unfolding(sheet::specs::Form::fields_form, sheet::specs::Form::item_form), using(sheet::proofs::Cases::fields_rule, crate::proofs::Fields::expr_is, crate::proofs::Fields::expr_deep, crate::proofs::Fields::one_is, crate::proofs::Fields::last_is))]
pub fn expr_form(form: &LineForm, mut left: usize, mut at: usize) -> Walk
    ensures { result ≡ node_in form.now left Sort.Expr at }
{
    loop {
        let h = head_form(form.sheet, Sort::Expr, at)?;
        if left == 0 {
            return Err(Offence::TooDeep(at));
        }
        let k = payload_at(form.sheet, at);
        let q = own_form(form, k, h)?;
        // Where the last part is an expression, the next turn reads it: a Result goes through memory when it is given back.
        at = match ExprKind::of(k) {
            ExprKind::NumberLit => return number_form(form.sheet, q),
            ExprKind::SysFuncCall => {
                let p = operator_form(form, FUNCTIONS, q)?;
                return exprs_form(form, left - 1, p);
            }
            ExprKind::UserFuncCall => form.optional_name_form(q)?,
            ExprKind::Binary => {
                let p = expr_form(form, left - 1, q)?;
                operator_form(form, BINARY_OPS, p)?
            }
            ExprKind::Unary => operator_form(form, 3, q)?,
            ExprKind::Index => {
                let p = form.optional_name_form(q)?;
                return exprs_form(form, left - 1, p);
            }
            _ => return Ok(q),
        };
        left -= 1;
    }
}

// A place to store, of the sort c: an expression of the cases that may stand there.
#[tactic(auto, unfolding(sheet::specs::Form::node_form), using(sheet::proofs::Walks::told, crate::proofs::Fields::sort_is))]
pub fn place_form(form: &LineForm, left: usize, c: Sort, at: usize) -> Walk
    ensures { node_kind c ≡ kind_number ExprWord → result ≡ node_in form.now left c at }
{
    if may_stand(c, payload_at(form.sheet, at)) {
        expr_form(form, left, at)
    } else {
        Err(Offence::BadWord(at))
    }
}

// Absent, or an expression. The test for absent stands in each form: absent_form says why.
#[tactic(auto, unfolding(sheet::specs::Form::field_form, sheet::specs::Form::times_form), using(walk::proofs::Lines::alone))]
pub fn optional_expr_form(form: &LineForm, left: usize, at: usize) -> Walk
    ensures { result ≡ field_in form.now left (optional expr) at }
{
    if is_absent(form.sheet, at) {
        absent_form(form.sheet, at)
    } else {
        expr_form(form, left, at)
    }
}

// The leaves of the form that several statements and expressions have.
ghost use Rattle.std.specs.Prelude.{◌≡◌};
ghost use Rattle.sheet.specs.declared.form.Sort.TheVariants.{Expr};
ghost use Rattle.sheet.specs.Table.{own_range};
ghost use Rattle.sheet.specs.Form.{then, take_word, range_form};
ghost use Rattle.accept_exprs.specs.Read.{item_in};

use sheet::form::{ExprKind, Kind, LineForm, Walk};
use sheet::leaf::take_word;

// The range of a function or an operator, and its place among n.
#[inline(always)]
pub fn operator_form(form: &LineForm, n: u32, at: usize) -> Walk
    ensures { result ≡ then (range_form form.now.sheet.now form.now.line at) (λ p. take_word form.now.sheet.now 9 n p) }
{
    let p = form.range_form(at)?;
    take_word(form.sheet, Kind::Place, n, p)
}

// An expression's own range: a name, a text, or neither. k is the case's number, which the clause names.
#[inline(always)]
#[tactic(auto, using(sheet::proofs::Cases::range_rule), unfolding(sheet::specs::Form::item_form))]
pub fn own_form(form: &LineForm, k: u32, at: usize) -> Walk
    ensures { result ≡ item_in form.now 0 (own_range Expr k) at }
{
    match ExprKind::of(k) {
        ExprKind::Ident => form.name_form(at),
        ExprKind::StringLit => form.text_form(at),
        _ => form.range_form(at),
    }
}

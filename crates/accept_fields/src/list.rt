// Lists: a count, and so many parts, each read by a closure.
ghost use Rattle.std.specs.Prelude.{◌≡◌, ℕ};
ghost use Rattle.sheet.specs.Walk.{Walk};
ghost use Rattle.sheet.specs.declared.form.Times.TheVariants.{NonEmpty};
ghost use Rattle.sheet.specs.Form.{list_form, times_form};
ghost use Rattle.accept_exprs.specs.Read.{list_in, some_in};
ghost use Rattle.accept_fields.specs.Counted.{Reads};

use recorder::number::PAYLOAD_SIZE;
use recorder::word::payload_at;
use sheet::form::{Kind, LineForm, Walk};
use sheet::leaf::{non_empty_form, take_word};

// A count, and so many.
#[tactic(auto, unfolding(sheet::specs::Form::list_form, sheet::specs::Form::repeat_form))]
pub(crate) fn list_form<F: Fn(usize) -> Walk>(form: &LineForm, at: usize, each: F) -> Walk
    requires { F.IsAlwaysCallable each }
    ensures { (f : ℕ → Walk) → Reads (F.post each) f → result ≡ list_in form.now 0 f at }
{
    let mut p = take_word(form.sheet, Kind::Count, PAYLOAD_SIZE, at)?;
    for _ in 0..payload_at(form.sheet, at) {
        p = each(p)?;
    }
    Ok(p)
}

// A count of at least one, and so many.
#[tactic(auto, unfolding(sheet::specs::Form::times_form))]
pub(crate) fn some_form<F: Fn(usize) -> Walk>(form: &LineForm, at: usize, each: F) -> Walk
    requires { F.IsAlwaysCallable each }
    ensures { (f : ℕ → Walk) → Reads (F.post each) f → result ≡ some_in form.now 0 f at }
{
    non_empty_form(form.sheet, at)?;
    list_form(form, at, each)
}

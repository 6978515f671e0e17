// The refusals 1 to 8 of a whole input.
#![tactic(auto)]

ghost use Rattle.std.specs.Prelude.{◌≡◌};
ghost use Rattle.recorder.specs.Word.{either};
ghost use Rattle.sheet.specs.Form.{between};
ghost use Rattle.sheet.specs.Check.{has_surrogate, checked};

use recorder::number::SHEET_LIMIT;
use sheet::form::Refusal;

pub mod stmt;

// Whether a unit is half of a pair. The loop does not stop at the first, so that several units are tested at once.
#[tactic(auto, unfolding(sheet::specs::Check::has_surrogate))]
fn has_surrogate(text: &[u16]) -> bool
    ensures { result ≡ has_surrogate text.now }
{
    let mut found = false;
    for u in text {
        found |= matches!(*u, 55296..=57343);
    }
    found
}

// The refusals 1 to 8 of a whole input; work is the length of the lent work. sheet and text come from the C interface as two.
#[tactic(auto, unfolding(sheet::specs::Check::checked))]
pub fn check(sheet: &[u32], text: &[u16], work: usize) -> Result<(), Refusal>
    ensures { result ≡ checked sheet.now text.now work }
{
    if SHEET_LIMIT < sheet.len() || SHEET_LIMIT < text.len() {
        return Err(Refusal::TooLong);
    }
    if has_surrogate(text) {
        return Err(Refusal::Surrogate);
    }
    if work < sheet.len() {
        return Err(Refusal::WorkTooShort);
    }
    crate::stmt::sheet_form(sheet, text)?;
    Ok(())
}

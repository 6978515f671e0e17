// The leaves of the sheet: words, ranges, names, number literals, data, labels. Those of expressions are inlined always: a Walk goes
// through memory where it is returned.
// sheet and at go by themselves, not as a Reader: at is what the call before gave, and a Reader would be made for each.
ghost use Rattle.std.specs.Prelude.{◌≡◌, ◌+◌, ◌-◌, length};
ghost use Rattle.recorder.specs.Numbers.{label_size};
ghost use Rattle.recorder.specs.Word.{choose};
ghost use Rattle.sheet.specs.Table.{kind_number};
ghost use Rattle.sheet.specs.Form.{is_letter, is_alnum, is_inner, is_last, name_tail, is_name, is_absent, has_unit, in_line, take_word, absent_form, non_empty_form, half_form, number_form, head_form, range_form, text_form, name_form, datum_form, label_form, high_fits, low_fits, lacks_unit};

use crate::form::{Kind, Line, LineForm, Offence, Sort, Walk};
use recorder::number::{HALF_SIZE, LABEL_SIZE, LEAST_HIGH, PAYLOAD_SIZE, TOO_LARGE};
use recorder::unit::{BLANK, DOLLAR, LOWER_A, LOWER_Z, NINE, PERCENT, UPPER_A, UPPER_Z, ZERO};
use recorder::word::{Range, behind, kind_at, payload_at, range_at, unit_at};

fn is_letter(u: u16) -> bool
    ensures { result ≡ is_letter u }
{
    matches!(u, UPPER_A..=UPPER_Z | LOWER_A..=LOWER_Z)
}

fn is_alnum(u: u16) -> bool
    ensures { result ≡ is_alnum u }
{
    is_letter(u) || matches!(u, ZERO..=NINE)
}

// A unit within a name: a letter, a digit or a blank.
fn is_inner(u: u16) -> bool
    ensures { result ≡ is_inner u }
{
    is_alnum(u) || u == BLANK
}

// A name's last unit behind its first: a letter, a digit or a sigil.
fn is_last(u: u16) -> bool
    ensures { result ≡ is_last u }
{
    is_alnum(u) || u == PERCENT || u == DOLLAR
}

// What stands behind a name's first unit: letters, digits and blanks, then the last unit.
fn name_tail(units: &[u16]) -> bool
    ensures { result ≡ name_tail units.now 0 (length units.now) }
{
    match units.split_last() {
        Some((last, inner)) => inner.iter().all(|u| is_inner(*u)) && is_last(*last),
        None => true,
    }
}

fn is_name(units: &[u16]) -> bool
    ensures { result ≡ is_name units.now 0 (length units.now) }
{
    match units.split_first() {
        Some((first, tail)) => is_letter(*first) && name_tail(tail),
        None => false,
    }
}

// Whether a range of a line holds a name; one that passes the text's end holds none.
pub fn is_name_range(text: &[u16], line: Line, r: Range) -> bool
    ensures { result ≡ is_name text.now (line.base + r.start) (r.end - r.start) }
{
    let units = text.get(line.base..).unwrap_or_default();
    is_name(
        units
            .get(r.start as usize..r.end as usize)
            .unwrap_or_default(),
    )
}

pub fn is_absent(sheet: &[u32], at: usize) -> bool
    ensures { result ≡ is_absent sheet.now at }
{
    kind_at(sheet, at) == Kind::Absent as u32
}

fn in_line(line: Line, r: Range) -> bool
    ensures { result ≡ in_line line r }
{
    r.start <= r.end && r.end as usize <= line.len
}

fn has_unit(r: Range) -> bool
    ensures { result ≡ has_unit r }
{
    r.start < r.end
}

// A word of a kind with a payload below n.
#[inline(always)]
#[tactic(auto, unfolding(crate::specs::Form::take_word))]
pub fn take_word(sheet: &[u32], k: Kind, n: u32, at: usize) -> Walk
    ensures { result ≡ take_word sheet.now (kind_number k) n at }
{
    if kind_at(sheet, at) == k as u32 && payload_at(sheet, at) < n {
        Ok(behind(sheet, at))
    } else {
        Err(Offence::BadWord(at))
    }
}

// What stands where an option is absent. The test for it stands in each form that has one, here and in the crates above: one function
// would take a closure, and ask in public that it may be called.
pub fn absent_form(sheet: &[u32], at: usize) -> Walk
    ensures { result ≡ absent_form sheet.now at }
{
    take_word(sheet, Kind::Absent, 1, at)
}

// A count of at least one.
#[tactic(auto, unfolding(crate::specs::Form::non_empty_form))]
pub fn non_empty_form(sheet: &[u32], at: usize) -> Walk
    ensures { result ≡ non_empty_form sheet.now at }
{
    let p = take_word(sheet, Kind::Count, PAYLOAD_SIZE, at)?;
    if payload_at(sheet, at) == 0 {
        Err(Offence::BadWord(at))
    } else {
        Ok(p)
    }
}

// Whether the halves of a mantissa may stand behind an exponent. The exponents of zero and of a number too large want zeros.
fn high_fits(e: u32, m: u32) -> bool
    ensures { result ≡ high_fits e m }
{
    if matches!(e, 0 | TOO_LARGE) {
        m == 0
    } else {
        LEAST_HIGH <= m
    }
}

fn low_fits(e: u32, m: u32) -> bool
    ensures { result ≡ low_fits e m }
{
    m == 0 || !matches!(e, 0 | TOO_LARGE)
}

// One half of a mantissa.
#[inline(always)]
fn half_form(sheet: &[u32], fits: bool, at: usize) -> Walk
    ensures { result ≡ half_form sheet.now fits at }
{
    let p = take_word(sheet, Kind::Mantissa, HALF_SIZE, at)?;
    if fits {
        Ok(p)
    } else {
        Err(Offence::BadWord(at))
    }
}

// A number literal's value.
#[inline(always)]
#[tactic(auto, unfolding(crate::specs::Form::number_form, crate::specs::Form::high_form, crate::specs::Form::low_form))]
pub fn number_form(sheet: &[u32], at: usize) -> Walk
    ensures { result ≡ number_form sheet.now at }
{
    let p = take_word(sheet, Kind::Exponent, TOO_LARGE + 1, at)?;
    let e = payload_at(sheet, at);
    let q = half_form(sheet, high_fits(e, payload_at(sheet, p)), p)?;
    half_form(sheet, low_fits(e, payload_at(sheet, q)), q)
}

// The head of a statement or an expression.
#[inline(always)]
pub fn head_form(sheet: &[u32], c: Sort, at: usize) -> Walk
    ensures { result ≡ head_form sheet.now c at }
{
    if kind_at(sheet, at) == crate::form::node_kind(c) as u32
        && crate::form::may_stand(c, payload_at(sheet, at))
    {
        Ok(behind(sheet, at))
    } else {
        Err(Offence::BadWord(at))
    }
}

pub fn optional_label_form(sheet: &[u32], at: usize) -> Walk
    ensures { result ≡ choose (is_absent sheet.now at) (absent_form sheet.now) (take_word sheet.now 3 label_size) at }
{
    if is_absent(sheet, at) {
        absent_form(sheet, at)
    } else {
        take_word(sheet, Kind::Label, LABEL_SIZE, at)
    }
}

// Whether a datum says that it is quoted, by the word as it stands, and its range has no unit.
fn lacks_unit(quoted: u32, r: Range) -> bool
    ensures { result ≡ lacks_unit quoted r }
{
    quoted == 1 && !has_unit(r)
}

// What stands in a line, by its range.
impl LineForm<'_> {
    #[inline(always)]
    #[tactic(auto, unfolding(crate::specs::Form::range_form))]
    pub fn range_form(&self, at: usize) -> Walk
        ensures { result ≡ range_form self.now.sheet.now self.now.line at }
    {
        let p = take_word(self.sheet, Kind::Range, PAYLOAD_SIZE, at)?;
        if in_line(self.line, range_at(self.sheet, at)) {
            Ok(p)
        } else {
            Err(Offence::BadRange(at))
        }
    }

    // A range with a unit. text_form and name_form differ in one test; a function over it would take a closure, and be no shorter.
    #[tactic(auto, unfolding(crate::specs::Form::text_form))]
    pub fn text_form(&self, at: usize) -> Walk
        ensures { result ≡ text_form self.now.sheet.now self.now.line at }
    {
        let p = self.range_form(at)?;
        if has_unit(range_at(self.sheet, at)) {
            Ok(p)
        } else {
            Err(Offence::BadRange(at))
        }
    }

    #[inline(always)]
    #[tactic(auto, unfolding(crate::specs::Form::name_form))]
    pub fn name_form(&self, at: usize) -> Walk
        ensures { result ≡ name_form self.now.sheet.now self.now.text.now self.now.line at }
    {
        let p = self.range_form(at)?;
        if is_name_range(self.text, self.line, range_at(self.sheet, at)) {
            Ok(p)
        } else {
            Err(Offence::BadRange(at))
        }
    }

    #[inline(always)]
    pub fn optional_name_form(&self, at: usize) -> Walk
        ensures { result ≡ choose (is_absent self.now.sheet.now at) (absent_form self.now.sheet.now) (name_form self.now.sheet.now self.now.text.now self.now.line) at }
    {
        if is_absent(self.sheet, at) {
            absent_form(self.sheet, at)
        } else {
            self.name_form(at)
        }
    }

    // A datum: its range, and whether it is quoted.
    #[tactic(auto, unfolding(crate::specs::Form::datum_form))]
    pub fn datum_form(&self, at: usize) -> Walk
        ensures { result ≡ datum_form self.now.sheet.now self.now.line at }
    {
        let p = self.range_form(at)?;
        let q = take_word(self.sheet, Kind::Flag, 2, p)?;
        if lacks_unit(payload_at(self.sheet, p), range_at(self.sheet, at)) {
            Err(Offence::BadRange(at))
        } else {
            Ok(q)
        }
    }

    // A line's label: absent, or range and label.
    #[tactic(auto, unfolding(crate::specs::Form::label_form))]
    pub fn label_form(&self, at: usize) -> Walk
        ensures { result ≡ label_form self.now.sheet.now self.now.line at }
    {
        if is_absent(self.sheet, at) {
            return absent_form(self.sheet, at);
        }
        let p = self.range_form(at)?;
        take_word(self.sheet, Kind::Label, LABEL_SIZE, p)
    }
}

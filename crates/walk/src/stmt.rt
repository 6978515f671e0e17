// The first word of a line, the end of the sheet, and the places behind statements and expressions: the table's fields, walked over
// the sheet.
// Each child is read by a call, with the remaining words as the number that falls.
// sheet, left and at go by themselves, no Reader among them: at is what the call before gave, and a Reader would be made for each.
ghost use Rattle.std.specs.Prelude.{◌≡◌, ◌+◌, ◌-◌, leb};
ghost use Rattle.sheet.specs.Form.{line_head, end_form};
ghost use Rattle.sheet.specs.Skip.{skip_item, skip_pair, skip_list, skip_field, skip_fields, skip_node};

use recorder::number::LINE_SIZE;
use recorder::word::{behind, payload_at};
use sheet::form::{ElementKind, Field, Item, Kind, Offence, Sort, SourceKind, Times, Walk};
use sheet::leaf::{is_absent, take_word};

// Whether n units more than base are at most so many.
fn fits(base: usize, n: usize, len: usize) -> bool
    ensures { result ≡ leb (base + n) len }
{
    base <= len && n <= len - base
}

// A line's first word: its length, which the text must hold behind the lines before. No LineForm yet: this word says how
// long the line is.
#[tactic(auto, unfolding(sheet::specs::Form::line_head))]
pub fn line_head(sheet: &[u32], text: &[u16], base: usize, at: usize) -> Walk
    ensures { result ≡ line_head sheet.now text.now base at }
{
    let p = take_word(sheet, Kind::Line, LINE_SIZE, at)?;
    if fits(base, payload_at(sheet, at) as usize, text.len()) {
        Ok(p)
    } else {
        Err(Offence::BadLength(at))
    }
}

// Behind the last line no word and no unit may be left. There is no line any more, so no LineForm.
#[tactic(auto, unfolding(sheet::specs::Form::end_form))]
pub fn end_form(sheet: &[u32], text: &[u16], base: usize, at: usize) -> Walk
    ensures { result ≡ end_form sheet.now text.now base at }
{
    if at < sheet.len() {
        Err(Offence::BadWord(at))
    } else if base < text.len() {
        Err(Offence::BadLength(sheet.len()))
    } else {
        Ok(at)
    }
}

#[cycle(skip_cycle)]
#[tactic(auto, unfolding(sheet::specs::Skip::skip_item), using(sheet::proofs::Cases::keyboard_number, sheet::proofs::Cases::prompt_number, crate::proofs::Skips::file_two, crate::proofs::Skips::over_file, crate::proofs::Steps::to_next))]
pub fn skip_source(sheet: &[u32], left: usize, at: usize) -> usize
    ensures { result ≡ skip_item sheet.now (skip_node sheet.now left) Item.Source at }
{
    let p = behind(sheet, at);
    match SourceKind::of(payload_at(sheet, at)) {
        SourceKind::Keyboard => p,
        SourceKind::KeyboardWithPrompt => behind(sheet, p),
        SourceKind::File => skip_node(sheet, left, Sort::Expr, p),
    }
}

#[cycle(skip_cycle)]
#[tactic(auto, unfolding(sheet::specs::Skip::skip_item), using(sheet::proofs::Cases::value_number, sheet::proofs::Cases::mark_number, crate::proofs::Skips::over_mark, crate::proofs::Steps::to_next))]
fn skip_element(sheet: &[u32], left: usize, at: usize) -> usize
    ensures { result ≡ skip_item sheet.now (skip_node sheet.now left) Item.Element at }
{
    let p = behind(sheet, at);
    match ElementKind::of(payload_at(sheet, at)) {
        ElementKind::Expr => skip_node(sheet, left, Sort::Expr, p),
        ElementKind::Comma | ElementKind::Semicolon => behind(sheet, p),
    }
}

// The arms' functions take parameters of their own; a table of function pointers would lose which one is called.
#[cycle(skip_cycle)]
#[tactic(auto, unfolding(sheet::specs::Skip::skip_item))]
fn skip_item(sheet: &[u32], left: usize, item: Item, at: usize) -> usize
    ensures { result ≡ skip_item sheet.now (skip_node sheet.now left) item at }
{
    match item {
        Item::Nothing => at,
        Item::Node(c) => skip_node(sheet, left, c, at),
        Item::Number => behind(sheet, behind(sheet, behind(sheet, at))),
        Item::Datum => behind(sheet, behind(sheet, at)),
        Item::Source => skip_source(sheet, left, at),
        Item::Element => skip_element(sheet, left, at),
        Item::Word(_, _)
        | Item::Range
        | Item::Name
        | Item::OptionalName
        | Item::Text
        | Item::OptionalLabel => behind(sheet, at),
    }
}

#[cycle(skip_cycle)]
#[tactic(auto, unfolding(sheet::specs::Skip::skip_pair), using(crate::proofs::Skips::item_skips, crate::proofs::Skips::node_skips))]
fn skip_pair(sheet: &[u32], left: usize, f: Field, at: usize) -> usize
    ensures { result ≡ skip_pair sheet.now (skip_node sheet.now left) f.first f.second at }
{
    let p = skip_item(sheet, left, f.first, at);
    skip_item(sheet, left, f.second, p)
}

#[cycle(skip_cycle)]
#[tactic(auto, unfolding(sheet::specs::Skip::skip_list, sheet::specs::Skip::skip_repeat), using(crate::proofs::Steps::to_next))]
fn skip_list(sheet: &[u32], left: usize, f: Field, at: usize) -> usize
    ensures { result ≡ skip_list sheet.now (skip_pair sheet.now (skip_node sheet.now left) f.first f.second) at }
{
    let mut p = behind(sheet, at);
    for _ in 0..payload_at(sheet, at) {
        p = skip_pair(sheet, left, f, p);
    }
    p
}

#[cycle(skip_cycle)]
#[tactic(auto, unfolding(sheet::specs::Skip::skip_field, sheet::specs::Skip::skip_times))]
fn skip_field(sheet: &[u32], left: usize, f: Field, at: usize) -> usize
    ensures { result ≡ skip_field sheet.now (skip_node sheet.now left) f at }
{
    match f.times {
        Times::Optional | Times::OptionalList if is_absent(sheet, at) => behind(sheet, at),
        Times::Once | Times::Optional => skip_pair(sheet, left, f, at),
        Times::List | Times::NonEmpty | Times::OptionalList => skip_list(sheet, left, f, at),
    }
}

#[cycle(skip_cycle)]
#[tactic(auto, unfolding(sheet::specs::Skip::skip_fields))]
fn skip_fields(sheet: &[u32], left: usize, fields: &[Field], at: usize) -> usize
    ensures { result ≡ skip_fields sheet.now (skip_node sheet.now left) fields.now at }
{
    let mut p = at;
    for f in fields {
        p = skip_field(sheet, left, *f, p);
    }
    p
}

// The place behind a statement or an expression, found by reading its own children.
#[cycle(skip_cycle)]
#[tactic(auto, unfolding(sheet::specs::Skip::skip_node), using(crate::proofs::Skips::node_end, crate::proofs::Cycle::next_inside, crate::proofs::Steps::to_next))]
pub fn skip_node(sheet: &[u32], left: usize, c: Sort, at: usize) -> usize
    ensures { result ≡ skip_node sheet.now left c at }
{
    if left == 0 || sheet.len() <= at {
        return at;
    }
    let fields = crate::shape::fields_of(c, payload_at(sheet, at));
    skip_fields(sheet, left - 1, fields, behind(sheet, behind(sheet, at)))
}

// The place behind an expression.
pub fn skip_expr(sheet: &[u32], at: usize, left: usize) -> usize
    ensures { result ≡ skip_node sheet.now left Sort.Expr at }
{
    skip_node(sheet, left, Sort::Expr, at)
}

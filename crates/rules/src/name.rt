// Reading a name from the text: the first half of compile_sym of compiler.rs.
ghost use Rattle.std.specs.Prelude.{◌≡◌, ◌-◌};
ghost use Rattle.rules.specs.Name.{text_place, ends_name, name_length, sigil_count, read_name};

use crate::types::Type;
use recorder::codegen;
use recorder::unit::{BLANK, DOLLAR, PERCENT};
use recorder::word::Range;

// A name as the recorder takes it, its units counted up to a blank or its sigil; its kind; and how many units are lost: those from the
// first blank up to the sigil or the end.
#[derive(Clone, Copy)]
pub struct Name {
    pub name: codegen::Name,
    pub ty: Type,
    pub lost: u32,
}

// So many units behind where a line begins in the text.
pub fn text_place(base: u32, n: u32) -> u32
    ensures { result ≡ text_place base n }
{
    base.wrapping_add(n)
}

// The number of units between a start and an end.
pub fn units(r: Range) -> u32
    ensures { result ≡ r.end - r.start }
{
    u32::from(r.end.saturating_sub(r.start))
}

// A blank, $ or %.
fn ends_name(u: u16) -> bool
    ensures { result ≡ ends_name u }
{
    matches!(u, BLANK | DOLLAR | PERCENT)
}

// Of the n units from a place, those before the first blank or sigil; behind the text there is neither.
fn name_length(text: &[u16], at: usize, n: u32) -> u32
    ensures { result ≡ name_length text.now at n }
{
    let units = text.get(at..).unwrap_or_default();
    units
        .iter()
        .take(n as usize)
        .position(|u| ends_name(*u))
        .map_or(n, |len| len as u32)
}

fn sigil_count(sigil: u32) -> u32
    ensures { result ≡ sigil_count sigil }
{
    u32::from(sigil != 0)
}

#[tactic(auto, unfolding(crate::specs::Name::read_name))]
pub fn read_name(text: &[u16], base: u32, r: Range) -> Name
    ensures { result ≡ read_name text.now base r }
{
    let start = text_place(base, u32::from(r.start));
    let n = units(r);
    let last = text_place(base, u32::from(r.end)).saturating_sub(1);
    let ty = Type::of_last_unit(recorder::word::unit_at(text, last as usize));
    let sigil = ty.sigil();
    let len = name_length(text, start as usize, n);
    Name {
        name: codegen::Name { start, len, sigil },
        ty,
        lost: n.saturating_sub(len).saturating_sub(sigil_count(sigil)),
    }
}

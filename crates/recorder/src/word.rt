// The words of a sheet and of a list: a kind in the top 8 bits, a payload in the low 24.
ghost use Rattle.std.specs.Prelude.{◌≡◌, get_or};
ghost use Rattle.recorder.specs.Calls.{pack, unpack};
ghost use Rattle.recorder.specs.Word.{kind, payload, kind_at, payload_at, word_of, next, range_of, range_at, range_word};

use crate::number::{HALF_SIZE, LINE_SIZE, PAYLOAD_SIZE};

// A range within its line: from start up to, but without, end.
#[derive(Clone, Copy)]
pub struct Range {
    pub start: u16,
    pub end: u16,
}

pub fn kind_of(w: u32) -> u32
    ensures { result ≡ kind w }
{
    w / PAYLOAD_SIZE
}

pub fn payload_of(w: u32) -> u32
    ensures { result ≡ payload w }
{
    w % PAYLOAD_SIZE
}

// A word made of its kind and the low 24 bits of a number.
pub fn word_of(kind: u8, n: u32) -> u32
    ensures { result ≡ word_of kind n }
{
    u32::from(kind) * PAYLOAD_SIZE + n % PAYLOAD_SIZE
}

// The word at a place, 0 behind the end. Words and units have a function each: with Default the contract would not say 0, and with the
// value as a parameter each call would name it.
pub fn word_at(s: &[u32], at: usize) -> u32
    ensures { result ≡ get_or s.now at 0 }
{
    if at < s.len() { s[at] } else { 0 }
}

pub fn kind_at(s: &[u32], at: usize) -> u32
    ensures { result ≡ kind_at s.now at }
{
    kind_of(word_at(s, at))
}

pub fn payload_at(s: &[u32], at: usize) -> u32
    ensures { result ≡ payload_at s.now at }
{
    payload_of(word_at(s, at))
}

// The place behind a word or a unit; the end stays.
#[tactic(auto, unfolding(crate::specs::Word::next))]
pub fn behind<T>(s: &[T], at: usize) -> usize
    ensures { result ≡ next s.now at }
{
    if at < s.len() { at + 1 } else { at }
}

// The unit of the text at a place, 0 behind the end.
pub fn unit_at(t: &[u16], at: usize) -> u16
    ensures { result ≡ get_or t.now at 0 }
{
    if at < t.len() { t[at] } else { 0 }
}

// A range has two forms as a number, the sheet's word and, in a record that waits, the packed one; so neither is a From.
pub fn range_of(w: u32) -> Range
    ensures { result ≡ range_of w }
{
    let p = payload_of(w);
    Range {
        start: (p / LINE_SIZE) as u16,
        end: (p % LINE_SIZE) as u16,
    }
}

pub fn range_at(s: &[u32], at: usize) -> Range
    ensures { result ≡ range_at s.now at }
{
    range_of(word_at(s, at))
}

pub fn range_word(r: Range) -> u32
    ensures { result ≡ range_word r }
{
    PAYLOAD_SIZE + u32::from(r.start) * LINE_SIZE + u32::from(r.end)
}

pub fn packed(r: Range) -> u32
    ensures { result ≡ pack r }
{
    u32::from(r.start) * HALF_SIZE + u32::from(r.end)
}

pub fn unpacked(c: u32) -> Range
    ensures { result ≡ unpack c }
{
    Range {
        start: (c / HALF_SIZE) as u16,
        end: (c % HALF_SIZE) as u16,
    }
}

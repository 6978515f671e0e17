// The recorder of codegen.rs, over lent words: records in the list, notes, entries in the book.
// What does not fit changes no word and sets its buffer's flag, which stays.
ghost use Rattle.std.specs.Prelude.{◌≡◌, ◌+◌, ◌*◌, ◌-◌, ◌/◌, ◌%◌, Some, None, min, ltb, eqb, length, get_or, set, replicate};
ghost use Rattle.recorder.specs.CallNumbers.{class_number, severity_of};
ghost use Rattle.recorder.specs.Word.{pick, both, payload_at, word_of, range_word};
ghost use Rattle.recorder.specs.Optional.{plus_one};
ghost use Rattle.recorder.specs.Name.{upper, same_units, same_name};
ghost use Rattle.recorder.specs.Layout.{rec_size, entry_size, most_records};
ghost use Rattle.recorder.specs.Offsets.{extra_at};
ghost use Rattle.recorder.specs.Mem.{nothing, names_in, sigil_code, link_of, with_link, known, child_of, may_link, root_of, records_in, named_at, hash_step, hash_of, descent_to, linked_at, root_in, low, more, four, tag_of, name_tag, tagged_at, lookup, entry_of, set_a, set_c, settle_args, clear_args, rec_of, look_at, begin_line, put, put_note, note, note_at, note_lost, put_entry, new_symbol, make_symbol, emit_datum, load_byte, next_byte, current_addr, patched};
ghost use Rattle.recorder.specs.CodeGen.{mem_of, SameLoans, look_is, emit};

use crate::call::{Call, Class};
use crate::label::{Addr, DatumIndex};
use crate::number::{PAYLOAD_SIZE, RECORD_LIMIT, WORD_SIZE};
use crate::unit::{DOLLAR, LOWER_A, LOWER_Z, PERCENT, UPPER_A};
use crate::word::{
    Range, behind, kind_at, kind_of, payload_at, range_word, unit_at, word_at, word_of,
};

// How many words a record and an entry have; behind the head of a record stand its range and its three arguments, in an entry last
// its extra.
pub const RECORD: usize = 5;

pub const ENTRY: usize = 4;

pub const RANGE: usize = 1;

pub const A: usize = 2;

pub const B: usize = 3;

pub const C: usize = 4;

pub const EXTRA: usize = 3;

// What an entry of the book is, by the kind of its first word.
#[derive(Clone, Copy)]
pub enum EntryKind {
    Name = 50,
    Datum = 51,
    Byte = 52,
}

// The code of a sigil in its name's entry, until closing up; without a sigil it is 0.
pub const DOLLAR_CODE: u32 = 1;

pub const PERCENT_CODE: u32 = 2;

// What is in the buffers: the counts of records, notes, entries and names, the first name's entry, the counts of data and bytes, the
// current line with its first datum, and whether a record, a note or an entry did not fit.
#[derive(Clone, Copy)]
pub struct State {
    pub records: usize,
    pub notes: usize,
    pub entries: usize,
    pub names: usize,
    pub root: Option<usize>,
    pub datums: usize,
    pub bytes: usize,
    pub line: usize,
    pub first: Option<DatumIndex>,
    pub list_full: bool,
    pub notes_full: bool,
    pub book_full: bool,
}

impl State {
    // Nothing written yet.
    #[inline(always)]
    pub fn empty() -> State
        ensures { result ≡ nothing }
    {
        State {
            records: 0,
            notes: 0,
            entries: 0,
            names: 0,
            root: None,
            datums: 0,
            bytes: 0,
            line: 0,
            first: None,
            list_full: false,
            notes_full: false,
            book_full: false,
        }
    }
}

// The buffers that are compiled into, and what is in them: lent memory of fixed lengths, filled from the front, so the counts are the
// state's. Each contract says SameLoans, that the buffers stay the lent ones: it speaks of two moments, so no clause of the type can.
#[derive(Drop)]
pub struct CodeGen<'a> {
    pub list: &'a mut [u32],
    pub notes: &'a mut [u32],
    pub book: &'a mut [u32],
    pub st: State,
}

// A name: where its units start in the text, how many they are before its sigil, and the sigil's unit or 0. A start, a length and a
// sigil as the words of a book's entry have them: a slice of the text would not say where it lies, and an enum of sigils would be
// turned back into the unit by each clause.
#[derive(Clone, Copy)]
pub struct Name {
    pub start: u32,
    pub len: u32,
    pub sigil: u32,
}

// On the descent to a name: an entry of the tree, and the bits of the name's hash that are left, the next one the highest.
#[derive(Clone, Copy)]
pub struct Descent {
    pub at: usize,
    pub bits: u32,
}

// Where the descent to a name stops, whether that entry is the name, and the name's tag. No enum: in some states, none that a call
// leaves, an entry is the name and still not found, and then the descent is needed, too.
#[derive(Clone, Copy)]
pub struct Stop {
    pub descent: Descent,
    pub named: bool,
    pub tag: u8,
}

// What the search for a name finds: where its descent ends, its entry, or how many are known, and its tag.
#[derive(Clone, Copy)]
pub struct Found {
    pub descent: Descent,
    pub entry: usize,
    pub tag: u8,
}

// What resolution reads of a record; b and c are its words, as the rules' Look has them: label plus 1, or 0, and the packed range.
#[derive(Clone, Copy)]
pub struct Looked {
    pub call: u32,
    pub line: u32,
    pub b: u32,
    pub c: u32,
}

// So many records fit into so many words.
pub fn most_records(words: usize) -> usize
    ensures { result ≡ most_records words }
{
    (words / RECORD).min(RECORD_LIMIT)
}

fn low_bits(n: usize) -> u32
    ensures { result ≡ low n }
{
    (n % PAYLOAD_SIZE as usize) as u32
}

#[tactic(auto, unfolding(crate::specs::Mem::more))]
fn one_more(n: usize, room: usize) -> usize
    ensures { result ≡ more n room }
{
    if n < room { n + 1 } else { n }
}

// The four words of a note or of an entry. Four numbers and no array, which would go through memory (docs/DECISIONS.md, 38); and n
// beside the words, since of what chunks_mut lends a proof knows the length alone.
fn put_four(s: &mut [u32], n: usize, h: u32, x: u32, y: u32, z: u32) -> bool
    ensures { (s.new ≡ pick (ltb n (length s.old / 4)) (four s.old n h x y z) s.old) × (result ≡ ltb n (length s.old / 4)) }
{
    if n < s.len() / 4 {
        let i = 4 * n;
        s[i] = h;
        s[i + 1] = x;
        s[i + 2] = y;
        s[i + 3] = z;
        true
    } else {
        false
    }
}

// As u8's and char's method of the name, which u16 has not.
fn to_ascii_uppercase(x: u16) -> u16
    ensures { result ≡ upper x }
{
    if matches!(x, LOWER_A..=LOWER_Z) {
        x - LOWER_A + UPPER_A
    } else {
        x
    }
}

// Behind the text each unit is 0, by the definition: an iterator over slices would end there, and would need that case beside it.
fn same_units(text: &[u16], a: usize, b: usize, n: u32) -> bool
    ensures { result ≡ same_units text.now a b n }
{
    let mut p = a;
    let mut q = b;
    for _ in 0..n {
        if to_ascii_uppercase(unit_at(text, p)) != to_ascii_uppercase(unit_at(text, q)) {
            return false;
        }
        p = behind(text, p);
        q = behind(text, q);
    }
    true
}

// Equal in upper case, which no derive says. Lengths and sigils first: the units are read only where both agree, and the first that
// differs ends it.
#[tactic(auto, unfolding(crate::specs::Name::same_name))]
fn same_name(text: &[u16], a: u32, n: u32, x: u32, name: &Name) -> bool
    ensures { result ≡ same_name text.now a n x name.now.start name.now.len (sigil_code name.now.sigil) }
{
    n == name.len
        && x == sigil_code(name.sigil)
        && same_units(&*text, a as usize, name.start as usize, n)
}

// A name's last word: a code of its sigil in the low 2 bits, and two entries of later names: the names are a tree of entry numbers in
// the book's own words, since there is no heap (docs/DECISIONS.md, 30).
fn sigil_code(g: u32) -> u32
    ensures { result ≡ sigil_code g }
{
    if g == DOLLAR as u32 {
        DOLLAR_CODE
    } else if g == PERCENT as u32 {
        PERCENT_CODE
    } else {
        0
    }
}

fn link_of(high: bool, w: u32) -> u32
    ensures { result ≡ link_of high w }
{
    if high { w / 131072 } else { w / 4 % 32768 }
}

// The word with one of its two entries set.
fn with_link(high: bool, w: u32, k: usize) -> u32
    ensures { result ≡ with_link high w k }
{
    let v = (k % 32768) as u32;
    if high {
        w % 131072 + 131072 * v
    } else {
        w / 131072 * 131072 + 4 * v + w % 4
    }
}

fn hash_step(h: u32, u: u16) -> u32
    ensures { result ≡ hash_step h u }
{
    ((h as u64 + u as u64) * 2654435769 % WORD_SIZE) as u32
}

// The hash of a name: its bits choose the children on the descent to it. As in same_units, units behind the text are 0, and count.
fn hash_of(text: &[u16], at: u32, first: u32, n: u32) -> u32
    ensures { result ≡ hash_of text.now at first n }
{
    let mut p = at as usize;
    let mut h = first;
    for _ in 0..n {
        h = hash_step(h, to_ascii_uppercase(unit_at(text, p)));
        p = behind(text, p);
    }
    h
}

fn name_hash(text: &[u16], name: &Name) -> u32
    ensures { result ≡ hash_of text.now name.now.start (sigil_code name.now.sigil) name.now.len }
{
    hash_of(text, name.start, sigil_code(name.sigil), name.len)
}

// A name's tag, in its head in place of the kind 50 until closing up: 128 and seven bits of its hash.
fn tag_of(hash: u32) -> u8
    ensures { result ≡ tag_of hash }
{
    (128 + hash / 4096 % 128) as u8
}

fn name_tag(text: &[u16], name: &Name) -> u8
    ensures { result ≡ name_tag text.now name.now.start name.now.len name.now.sigil }
{
    tag_of(name_hash(text, name))
}

// Whether an entry is a name, and that name is this one.
fn named_at(text: &[u16], book: &[u32], k: usize, tag: u8, name: &Name) -> bool
    ensures { result ≡ tagged_at text.now book.now k tag name.now.start name.now.len name.now.sigil }
{
    if k < book.len() / ENTRY {
        let i = ENTRY * k;
        kind_of(book[i]) == u32::from(tag)
            && same_name(&*text, book[i + 1], book[i + 2], book[i + EXTRA] % 4, name)
    } else {
        false
    }
}

fn is_high(bits: u32) -> bool
    ensures { result ≡ ltb 2147483647 bits }
{
    2147483647 < bits
}

fn next_bits(bits: u32) -> u32
    ensures { result ≡ bits * 2 % 4294967296 }
{
    (bits as u64 * 2 % WORD_SIZE) as u32
}

// The child that the descent goes on to; 0 for none, which ends it by the test that ends it at any entry not behind this one.
fn child_of(book: &[u32], descent: &Descent) -> usize
    ensures { result ≡ child_of book.now descent.now }
{
    let at = descent.at;
    if at < book.len() / ENTRY {
        link_of(is_high(descent.bits), book[ENTRY * at + EXTRA]) as usize
    } else {
        0
    }
}

// A new name, linked where its descent ends. Over the book alone: a method's clause would also say that list, notes and state stay.
#[tactic(auto, unfolding(crate::specs::Mem::linked_at))]
fn link(book: &mut [u32], descent: &Descent, k: usize)
    ensures { book.new ≡ linked_at book.old k descent.now }
{
    let at = descent.at;
    if at < book.len() / ENTRY {
        let i = ENTRY * at + EXTRA;
        book[i] = with_link(is_high(descent.bits), word_at(book, i), k);
    }
}

// A word of a record, written in the part of the list that begins at the record.
pub fn set_at(part: &mut [u32], i: usize, v: u32)
    ensures { part.new ≡ set part.old i v }
{
    if i < part.len() {
        part[i] = v;
    }
}

// Where a record of the list begins.
pub fn start_of(list: &[u32], k: u32) -> Option<usize>
    ensures { result ≡ pick (ltb k (length list.now / rec_size)) (Some (rec_size * k)) None }
{
    let k = k as usize;
    if k < list.len() / RECORD {
        Some(RECORD * k)
    } else {
        None
    }
}

// The call of a record.
pub fn call_of(list: &[u32], k: u32) -> u32
    ensures { result ≡ (rec_of list.now k).call }
{
    kind_at(list, RECORD * (k as usize))
}

fn clear_args(part: &mut [u32])
    ensures { part.new ≡ clear_args part.old }
{
    set_at(part, B, 0);
    set_at(part, C, 0);
}

fn settle_args(part: &mut [u32], v: u32)
    ensures { part.new ≡ settle_args v part.old }
{
    set_at(part, A, v);
    clear_args(part);
}

// Zeros everywhere.
pub fn clear(s: &mut [u32])
    ensures { s.new ≡ replicate (length s.old) 0 }
{
    s.fill(0);
}

impl CodeGen<'_> {
    pub fn begin_line(&mut self, line: u32)
        ensures same { SameLoans self.old self.new }
        ensures value { mem_of self.new ≡ begin_line (mem_of self.old) line }
    {
        self.st.line = line as usize;
        self.st.first = None;
    }

    // A record: its call, the current line, its range, three arguments. Four numbers and no Numbers: a struct goes through memory when
    // it is passed (docs/DECISIONS.md, 38), and every record passes here.
    #[tactic(auto, unfolding(crate::specs::Mem::put_list, crate::specs::Mem::put_st))]
    pub fn put(&mut self, r: Range, call: u8, a: u32, b: u32, c: u32)
        ensures same { SameLoans self.old self.new }
        ensures value { mem_of self.new ≡ put (mem_of self.old) call r a b c }
    {
        let n = self.st.records;
        let h = word_of(call, low_bits(self.st.line));
        let w = range_word(r);
        if n < most_records(self.list.len()) {
            let i = RECORD * n;
            self.list[i] = h;
            self.list[i + RANGE] = w;
            self.list[i + A] = a;
            self.list[i + B] = b;
            self.list[i + C] = c;
            self.st.records = n + 1;
        } else {
            self.st.list_full = true;
        }
    }

    // The record of a call.
    #[inline(always)]
    pub fn emit(&mut self, r: Range, call: Call)
        ensures same { SameLoans self.old self.new }
        ensures value { mem_of self.new ≡ emit (mem_of self.old) r call }
    {
        let n = call.numbers();
        self.put(r, n.call, n.a, n.b, n.c)
    }

    // A note of any head, range and severity, each a word. put_entry differs in three fields: one function for both would be lent
    // buffer, count and flag.
    #[tactic(auto, unfolding(crate::specs::Mem::note_list, crate::specs::Mem::note_st))]
    pub fn put_note_words(&mut self, h: u32, w: u32, severity: u32, lost: u32)
        ensures same { SameLoans self.old self.new }
        ensures value { mem_of self.new ≡ put_note (mem_of self.old) h w severity lost }
    {
        let n = self.st.notes;
        if put_four(self.notes, n, h, w, severity, lost) {
            self.st.notes = n + 1;
        } else {
            self.st.notes_full = true;
        }
    }

    // A note of a class, its range as a word.
    pub fn put_note(&mut self, class: Class, line: u32, w: u32, lost: u32)
        ensures same { SameLoans self.old self.new }
        ensures value { mem_of self.new ≡ put_note (mem_of self.old) (word_of (class_number class) line) w (severity_of class) lost }
    {
        let h = word_of(class.number(), line);
        self.put_note_words(h, w, class.severity(), lost)
    }

    // A note on the current line.
    pub fn note(&mut self, class: Class, r: Range)
        ensures same { SameLoans self.old self.new }
        ensures value { mem_of self.new ≡ note (mem_of self.old) (class_number class) r (severity_of class) }
    {
        self.note_at(low_bits(self.st.line), class, r)
    }

    // A note on a line that is named.
    pub fn note_at(&mut self, line: u32, class: Class, r: Range)
        ensures same { SameLoans self.old self.new }
        ensures value { mem_of self.new ≡ note_at (mem_of self.old) line (class_number class) r (severity_of class) }
    {
        self.put_note(class, line, range_word(r), 0)
    }

    // A note on the current line that says how many units of a name were lost.
    pub fn note_lost(&mut self, class: Class, r: Range, lost: u32)
        ensures same { SameLoans self.old self.new }
        ensures value { mem_of self.new ≡ note_lost (mem_of self.old) (class_number class) r (severity_of class) lost }
    {
        self.put_note(class, low_bits(self.st.line), range_word(r), lost)
    }

    #[tactic(auto, unfolding(crate::specs::Mem::entry_list, crate::specs::Mem::entry_st))]
    fn put_entry(&mut self, h: u32, x: u32, y: u32, z: u32)
        ensures same { SameLoans self.old self.new }
        ensures value { mem_of self.new ≡ put_entry (mem_of self.old) h x y z }
    {
        let n = self.st.entries;
        if put_four(self.book, n, h, x, y, z) {
            self.st.entries = n + 1;
        } else {
            self.st.book_full = true;
        }
    }

    // How many entries the book has.
    pub fn known(&self) -> usize
        ensures { result ≡ known self.now.book.now self.now.st }
    {
        self.st.entries.min(self.book.len() / ENTRY)
    }

    // Whether the next entry is one that a tree may hold.
    fn may_link(&self) -> bool
        ensures { result ≡ may_link self.now.book.now self.now.st }
    {
        self.st.entries < self.book.len() / ENTRY && self.st.entries < 32768
    }

    // The first name's entry, once the next entry is a name.
    #[tactic(auto, unfolding(crate::specs::Mem::root_of))]
    fn root_of(&self) -> Option<usize>
        ensures { result ≡ root_of self.now.book.now self.now.st }
    {
        if self.st.root.is_none() && self.may_link() {
            Some(self.st.entries)
        } else {
            self.st.root
        }
    }

    // The number within its kind of an entry that the book has.
    #[inline(always)]
    fn number_at(&self, k: usize) -> Option<u32>
        ensures { result ≡ pick (ltb k (known self.now.book.now self.now.st)) (Some (payload_at self.now.book.now (entry_size * k))) None }
    {
        if k < self.known() {
            Some(payload_at(self.book, ENTRY * k))
        } else {
            None
        }
    }

    // The first entry from `from` on that is this name, or how many are known, as the definition (lookup) counts: each clause would turn
    // an Option back into that count.
    fn find(&self, text: &[u16], name: &Name, from: usize) -> usize
        ensures { result ≡ lookup text.now self.now.book.now name.now.start name.now.len name.now.sigil from (known self.now.book.now self.now.st - from) }
    {
        let end = self.known();
        if end <= from {
            return from;
        }
        let tag = name_tag(&*text, name);
        for k in from..end {
            if named_at(&*text, &*self.book, k, tag, name) {
                return k;
            }
        }
        end
    }

    // The descent to a name, up to the name or to where it would be linked. Without a first name it starts at entry 0, as the definition
    // does: entry_of and new_symbol take nothing of where it stops then.
    fn descent_to(&self, text: &[u16], name: &Name) -> Stop
        ensures { (result.descent ≡ descent_to text.now self.now.book.now self.now.st name.now.start name.now.len name.now.sigil) × (result.named ≡ named_at text.now self.now.book.now result.descent.at name.now.start name.now.len name.now.sigil) × (result.tag ≡ name_tag text.now name.now.start name.now.len name.now.sigil) }
    {
        let end = self.known();
        let mut at = self.st.root.unwrap_or(0);
        let hash = name_hash(&*text, name);
        let tag = tag_of(hash);
        let mut bits = hash;
        for _ in 0..end {
            let descent = Descent { at, bits };
            if named_at(&*text, &*self.book, at, tag, name) {
                return Stop {
                    descent,
                    named: true,
                    tag,
                };
            }
            let k = child_of(&*self.book, &descent);
            if k <= at || end <= k {
                return Stop {
                    descent,
                    named: false,
                    tag,
                };
            }
            at = k;
            bits = next_bits(bits);
        }
        Stop {
            descent: Descent { at, bits },
            named: named_at(&*text, &*self.book, at, tag, name),
            tag,
        }
    }

    // The entry of a name whose descent stopped there, or how many are known.
    #[tactic(auto, unfolding(crate::specs::Mem::entry_of))]
    fn entry_of(&self, text: &[u16], stop: &Stop, name: &Name) -> usize
        ensures { result ≡ pick (both (ltb 0 (root_in self.now.st)) (both (ltb stop.now.descent.at (known self.now.book.now self.now.st)) stop.now.named)) stop.now.descent.at (lookup text.now self.now.book.now name.now.start name.now.len name.now.sigil (min (known self.now.book.now self.now.st) 32768) (known self.now.book.now self.now.st - 32768)) }
    {
        let end = self.known();
        let at = stop.descent.at;
        if self.st.root.is_some() && at < end && stop.named {
            return at;
        }
        self.find(&*text, name, end.min(32768))
    }

    // The search for a name. Text and name stay two: a struct of both would be made in make_symbol alone, and each clause would name its
    // two parts again. Slices go on as `&*` here and in what it calls: a copied one is written in two parts and read as one, for
    // which the processor waits.
    #[tactic(auto, unfolding(crate::specs::Mem::entry_of))]
    fn find_symbol(&self, text: &[u16], name: &Name) -> Found
        ensures { (result.descent ≡ descent_to text.now self.now.book.now self.now.st name.now.start name.now.len name.now.sigil) × (result.entry ≡ entry_of text.now self.now.book.now self.now.st name.now.start name.now.len name.now.sigil) × (result.tag ≡ name_tag text.now name.now.start name.now.len name.now.sigil) }
    {
        let stop = self.descent_to(&*text, name);
        let entry = self.entry_of(&*text, &stop, name);
        Found {
            descent: stop.descent,
            entry,
            tag: stop.tag,
        }
    }

    // A new name: linked where its descent ends, and put into the book.
    #[tactic(auto, unfolding(crate::specs::Mem::linked, crate::specs::Mem::entry_list, crate::specs::Mem::entry_st))]
    fn new_symbol(&mut self, found: &Found, name: &Name) -> u32
        ensures same { SameLoans self.old self.new }
        ensures value { mem_of self.new ≡ new_symbol (mem_of self.old) found.now.descent found.now.tag name.now.start name.now.len name.now.sigil }
        ensures number { result ≡ low (names_in self.old.st) }
    {
        let number = low_bits(self.st.names);
        let names = one_more(self.st.names, self.book.len() / ENTRY);
        let root = self.root_of();
        if self.st.root.is_some() && self.may_link() {
            link(self.book, &found.descent, self.st.entries);
        }
        self.put_entry(
            word_of(found.tag, number),
            name.start,
            name.len,
            sigil_code(name.sigil),
        );
        self.st.names = names;
        self.st.root = root;
        number
    }

    // The symbol of a name, which is put into the book where it is new.
    #[tactic(auto, unfolding(crate::specs::Mem::symbol_number, crate::specs::Mem::symbol_list, crate::specs::Mem::symbol_st))]
    pub fn make_symbol(&mut self, text: &[u16], name: &Name) -> u32
        ensures same { SameLoans self.old self.new }
        ensures value { mem_of self.new ≡ (make_symbol text.now (mem_of self.old) name.now.start name.now.len name.now.sigil).state }
        ensures number { result ≡ (make_symbol text.now (mem_of self.old) name.now.start name.now.len name.now.sigil).number }
    {
        let found = self.find_symbol(&*text, name);
        match self.number_at(found.entry) {
            Some(number) => number,
            None => self.new_symbol(&found, name),
        }
    }

    // A datum: where it stands in the text, and whether it was quoted, as the sheet's word says, which goes into the book as it stands.
    // load_byte differs in count, kind and the line's first datum. start and len are made for this one call, so no struct holds them.
    #[tactic(auto, unfolding(crate::specs::Mem::datum_list, crate::specs::Mem::datum_st))]
    pub fn emit_datum(&mut self, start: u32, len: u32, quoted: u32)
        ensures same { SameLoans self.old self.new }
        ensures value { mem_of self.new ≡ emit_datum (mem_of self.old) start len quoted }
    {
        let number = low_bits(self.st.datums);
        let datums = one_more(self.st.datums, self.book.len() / ENTRY);
        let first = Some(self.st.first.unwrap_or(DatumIndex(number)));
        self.put_entry(word_of(EntryKind::Datum as u8, number), start, len, quoted);
        self.st.datums = datums;
        self.st.first = first;
    }

    // A byte of a LOAD: its literal and its value.
    #[tactic(auto, unfolding(crate::specs::Mem::byte_list, crate::specs::Mem::byte_st))]
    pub fn load_byte(&mut self, start: u32, len: u32, value: u32)
        ensures same { SameLoans self.old self.new }
        ensures value { mem_of self.new ≡ load_byte (mem_of self.old) start len value }
    {
        let number = low_bits(self.st.bytes);
        let bytes = one_more(self.st.bytes, self.book.len() / ENTRY);
        self.put_entry(word_of(EntryKind::Byte as u8, number), start, len, value);
        self.st.bytes = bytes;
    }

    // The number that the next byte gets.
    pub fn next_byte(&self) -> u32
        ensures { result ≡ next_byte (mem_of self.now) }
    {
        low_bits(self.st.bytes)
    }

    // The current line's first datum.
    pub fn first_datum(&self) -> Option<DatumIndex>
        ensures { result ≡ self.now.st.first }
    {
        self.st.first
    }

    pub fn current_addr(&self) -> Addr
        ensures { result.0 ≡ current_addr (mem_of self.now) }
    {
        Addr((self.st.records % WORD_SIZE as usize) as u32)
    }

    // Where a record begins that is written and in the list.
    fn start_of(&self, k: u32) -> Option<usize>
        ensures { result ≡ pick (both (ltb k (records_in self.now.st)) (ltb k (length self.now.list.now / rec_size))) (Some (rec_size * k)) None }
    {
        if (k as usize) < self.st.records {
            start_of(self.list, k)
        } else {
            None
        }
    }

    // A word of the record at an address: the target, now known.
    #[tactic(auto, unfolding(crate::specs::Mem::on_rec, crate::specs::Mem::at_rec, crate::specs::Mem::part))]
    fn patch(&mut self, at: Addr, i: usize, target: Addr)
        ensures same { SameLoans self.old self.new }
        ensures value { mem_of self.new ≡ patched (λ p. set p i target.0) (mem_of self.old) at.0 }
    {
        if let Some(from) = self.start_of(at.0) {
            set_at(&mut self.list[from..], i, target.0);
        }
    }

    // A jump's target: argument a of the record at an address. This one and the next are two names of the Rust for `patch`.
    pub fn patch_jump_addr(&mut self, at: Addr, target: Addr)
        ensures same { SameLoans self.old self.new }
        ensures value { mem_of self.new ≡ patched (set_a target.0) (mem_of self.old) at.0 }
    {
        self.patch(at, A, target)
    }

    // A DEF's end: argument c.
    pub fn patch_def_end(&mut self, at: Addr, end: Addr)
        ensures same { SameLoans self.old self.new }
        ensures value { mem_of self.new ≡ patched (set_c end.0) (mem_of self.old) at.0 }
    {
        self.patch(at, C, end)
    }

    #[tactic(auto, unfolding(crate::specs::Mem::on_rec, crate::specs::Mem::at_rec, crate::specs::Mem::part))]
    fn settle_at(&mut self, k: u32, v: u32)
        ensures same { SameLoans self.old self.new }
        ensures value { mem_of self.new ≡ patched (settle_args v) (mem_of self.old) k }
    {
        if let Some(from) = self.start_of(k) {
            settle_args(&mut self.list[from..], v);
        }
    }

    // A pending jump that is settled: its target, and its label is gone. This one and the next are two over settle_at, since a target and
    // a DATA index are two number types.
    pub fn settle(&mut self, at: Addr, target: Addr)
        ensures same { SameLoans self.old self.new }
        ensures value { mem_of self.new ≡ patched (settle_args target.0) (mem_of self.old) at.0 }
    {
        self.settle_at(at.0, target.0)
    }

    // A pending RESTORE that is settled: its DATA index, and its label is gone.
    pub fn patch_datum_index(&mut self, at: Addr, index: DatumIndex)
        ensures same { SameLoans self.old self.new }
        ensures value { mem_of self.new ≡ patched (settle_args index.0) (mem_of self.old) at.0 }
    {
        self.settle_at(at.0, index.0)
    }

    // One whose label is nowhere: only its label is gone.
    #[tactic(auto, unfolding(crate::specs::Mem::on_rec, crate::specs::Mem::at_rec, crate::specs::Mem::part))]
    pub fn drop_label(&mut self, at: Addr)
        ensures same { SameLoans self.old self.new }
        ensures value { mem_of self.new ≡ patched clear_args (mem_of self.old) at.0 }
    {
        if let Some(from) = self.start_of(at.0) {
            clear_args(&mut self.list[from..]);
        }
    }

    // The call of the record at an address.
    pub fn call_at(&self, at: Addr) -> u32
        ensures { result ≡ (look_at self.now.list.now at.0).call }
    {
        call_of(self.list, at.0)
    }

    // What stands at an address.
    pub fn look(&self, at: Addr) -> Looked
        ensures { look_is result (look_at self.now.list.now at.0) }
    {
        let from = RECORD * (at.0 as usize);
        Looked {
            call: kind_at(self.list, from),
            line: payload_at(self.list, from),
            b: word_at(self.list, from + B),
            c: word_at(self.list, from + C),
        }
    }
}

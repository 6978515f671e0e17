// Closing up what is the recorder's: the WHILEs, the delays, End.
ghost use Rattle.std.specs.Prelude.{◌≡◌, ◌+◌, ◌*◌, ◌-◌, ◌/◌, ◌^◌, ◌≤◌, ◌<◌, min, get_or, eqb, ltb, length, Some, None};
ghost use Rattle.recorder.specs.Calls.{while_without_wend, error_note};
ghost use Rattle.recorder.specs.CallNumbers.{numbers_of};
ghost use Rattle.recorder.specs.Numbers.{word_size, bias, number_half};
ghost use Rattle.recorder.specs.Word.{pick, both, word_of, flag_of};
ghost use Rattle.recorder.specs.Closing.{is_one, is_start, is_end, is_for, is_next_of, rounded};
ghost use Rattle.recorder.specs.Layout.{rec_size, most_records};
ghost use Rattle.recorder.specs.Offsets.{range_word_at};
ghost use Rattle.recorder.specs.CodeGen.{mem_of, SameLoans};
ghost use Rattle.closing.specs.Parts.{passed_of, with_passed};
ghost use Rattle.recorder.specs.Mem.{put_note, rec_of, set_b, at_rec, while_list, while_top, whiles_from, top_from, open_from, set_head, rewrite, whole_at, delay_at, stepped_at, delayed_at, stepped_delayed_at, delay_list, delays_from, clean_up, sigil_of, unlink_at, unlink_from, unlinked};

use recorder::call::{Call, Class, FOR, NEXT, NUMBER, Numbers, OP, UNKNOWN, VAR, WHILE};
use recorder::codegen::{
    A, B, C, CodeGen, DOLLAR_CODE, ENTRY, EXTRA, EntryKind, PERCENT_CODE, RANGE, RECORD, call_of,
    most_records, set_at, start_of,
};
use recorder::label::Addr;
use recorder::number::{BIAS, LEAST_MANTISSA, ONE, ONE_HALF, WORD_SIZE};
use recorder::unit::{DOLLAR, PERCENT};
use recorder::word::{Range, kind_at, word_at, word_of};

// The statements End, WEND and SLEEP: an enum of 72 for the three that are looked for would be no plainer.
const END: u32 = 17;

const WEND: u32 = 62;

const SLEEP: u32 = 65;

// A number: m × 2^(e−160), zero at e 0.
#[derive(Clone, Copy)]
pub struct Number {
    pub e: u32,
    pub m: u32,
}

// list and k stay apart: of a delay the records from k on are asked, and a struct would be made for each.
fn is_call(list: &[u32], k: u32, call: u8) -> bool
    ensures { result ≡ eqb (rec_of list.now k).call call }
{
    call_of(list, k) == u32::from(call)
}

// A word of the record at an address.
fn record_word(list: &[u32], k: u32, i: usize) -> u32
    requires { i < rec_size }
    ensures { result ≡ get_or list.now (rec_size * k + i) 0 }
{
    word_at(list, RECORD * (k as usize) + i)
}

// The arguments a and b, by the names that document 01's sentences need.
fn a_of(list: &[u32], k: u32) -> u32
    ensures { result ≡ (rec_of list.now k).a }
{
    record_word(list, k, A)
}

fn b_of(list: &[u32], k: u32) -> u32
    ensures { result ≡ (rec_of list.now k).b }
{
    record_word(list, k, B)
}

fn is_call_with(list: &[u32], k: u32, call: u8, a: u32) -> bool
    ensures { result ≡ both (eqb (rec_of list.now k).call call) (eqb (rec_of list.now k).a a) }
{
    is_call(list, k, call) && a_of(list, k) == a
}

// The records that the list has: fewer than 65,536.
fn present_of(words: usize, records: usize) -> u16
    ensures { result ≡ min records (most_records words) }
{
    records.min(most_records(words)) as u16
}

#[tactic(auto, unfolding(recorder::specs::Mem::at_rec, recorder::specs::Mem::part))]
fn set_b_at(list: &mut [u32], at: Addr, v: u32)
    ensures { list.new ≡ at_rec (set_b v) list.old at.0 }
{
    if let Some(from) = start_of(list, at.0) {
        set_at(&mut list[from..], B, v);
    }
}

// The end of the WHILE at an address.
fn patch_while_end(list: &mut [u32], at: Addr, end: Addr)
    ensures { list.new ≡ at_rec (set_b end.0) list.old at.0 }
{
    set_b_at(list, at, end.0)
}

// The record at k of the pass over the WHILEs. The open ones are a pile of addresses in the list's own words, since there is no heap:
// `top`, and what is returned, is the word that the next WHILE keeps, the last open one's address plus 1, or 0; an Option would be turned
// back into it.
#[tactic(auto, unfolding(recorder::specs::Mem::while_list, recorder::specs::Mem::while_top))]
fn while_step(list: &mut [u32], top: u32, k: u16) -> u32
    ensures { (list.new ≡ while_list list.old top k) × (result ≡ while_top list.old top k) }
{
    let at = Addr(k as u32);
    if is_call(list, at.0, WHILE) {
        set_b_at(list, at, top);
        return at.0 + 1;
    }
    if top == 0 || !is_call_with(list, at.0, OP, WEND) {
        return top;
    }
    let w = Addr(top - 1);
    let link = b_of(list, w.0);
    patch_while_end(list, w, Addr(at.0 + 1));
    link
}

// The same of a CodeGen: a function that is lent it to write reads a word of the list through one that is lent it to read.
fn code_word(code: &CodeGen, at: Addr, i: usize) -> u32
    requires { i < rec_size }
    ensures { result ≡ get_or code.now.list.now (rec_size * at.0 + i) 0 }
{
    record_word(code.list, at.0, i)
}

// The note on a WHILE without WEND: its record's line and range.
fn open_note(code: &mut CodeGen, w: Addr)
    ensures same { SameLoans code.old code.new }
    ensures value { mem_of code.new ≡ put_note (mem_of code.old) (word_of while_without_wend (get_or code.old.list.now (rec_size * w.0) 0)) (get_or code.old.list.now (rec_size * w.0 + range_word_at) 0) error_note 0 }
{
    let line = code_word(code, w, 0);
    let range = code_word(code, w, RANGE);
    code.put_note(Class::WhileWithoutWend, line, range, 0)
}

// The end of patch_while_instr of the Rust: a note on each WHILE left open, the last first. `n`, how many records the list has, bounds
// the steps: of the links alone, which are words of any list, no proof knows an end.
fn open_whiles(code: &mut CodeGen, top: u32, n: u16)
    ensures same { SameLoans code.old code.new }
    ensures value { mem_of code.new ≡ with_passed (mem_of code.old) (open_from (passed_of (mem_of code.old)) top n) }
{
    let mut t = top;
    for _ in 0..n {
        if t == 0 {
            return;
        }
        let w = Addr(t - 1);
        t = code_word(code, w, B);
        open_note(code, w);
        set_b_at(code.list, w, UNKNOWN);
    }
}

// A record's head with another call; its line stays.
fn set_head(part: &mut [u32], call: u8)
    ensures { part.new ≡ set_head call part.old }
{
    if 0 < part.len() {
        let h = word_of(call, part[0]);
        part[0] = h;
    }
}

// A record anew but for its line and its range.
fn rewrite_part(part: &mut [u32], n: Numbers)
    ensures { part.new ≡ rewrite n.call n.a n.b n.c part.old }
{
    set_head(part, n.call);
    set_at(part, A, n.a);
    set_at(part, B, n.b);
    set_at(part, C, n.c);
}

#[tactic(auto, unfolding(recorder::specs::Mem::at_rec, recorder::specs::Mem::part))]
fn rewrite_at(list: &mut [u32], k: u32, call: Call)
    ensures { list.new ≡ at_rec (rewrite (numbers_of call).call (numbers_of call).a (numbers_of call).b (numbers_of call).c) list.old k }
{
    if let Some(from) = start_of(list, k) {
        rewrite_part(&mut list[from..], call.numbers());
    }
}

// 2^(160−e), a whole step in units of the mantissa.
fn unit_of(e: u32) -> u64
    requires { (number_half.e ≤ e) × (e < bias) }
    ensures { (result ≡ 2 ^ (bias - e)) × (0 < result) × (result ≤ word_size) }
{
    2_u64.pow(BIAS - e)
}

impl Number {
    // "rounds delay counts to the nearest whole step, an exact half going up". In 64 bits: m and half a unit may be more than a word
    // holds.
    pub fn rounded(self) -> Number
        ensures { (result.e ≡ (rounded self.e self.m).e) × (result.m ≡ (rounded self.e self.m).m) }
    {
        let e = self.e;
        let m = self.m;
        if e < ONE_HALF {
            return Number { e: 0, m: 0 };
        }
        if BIAS <= e {
            return Number { e, m };
        }
        let unit = unit_of(e);
        let whole = (m as u64 + unit / 2) / unit * unit;
        if whole < WORD_SIZE {
            return Number { e, m: whole as u32 };
        }
        Number {
            e: e + 1,
            m: (whole / 2) as u32,
        }
    }
}

#[tactic(auto, unfolding(recorder::specs::Mem::whole_at))]
fn whole_at(list: &mut [u32], k: u32)
    ensures { list.new ≡ whole_at list.old k }
{
    if is_call(list, k, NUMBER) {
        let number = Number {
            e: a_of(list, k),
            m: b_of(list, k),
        };
        let v = number.rounded();
        rewrite_at(list, k, Call::Number(v.e, v.m));
    }
}

fn is_one(list: &[u32], k: u32) -> bool
    ensures { result ≡ is_one (rec_of list.now k) }
{
    is_call(list, k, NUMBER) && a_of(list, k) == ONE && b_of(list, k) == LEAST_MANTISSA
}

// "number zero or one": zero has the exponent 0.
fn is_start(list: &[u32], k: u32) -> bool
    ensures { result ≡ is_start (rec_of list.now k) }
{
    is_call_with(list, k, NUMBER, 0) || is_one(list, k)
}

fn is_end(list: &[u32], k: u32) -> bool
    ensures { result ≡ is_end (rec_of list.now k) }
{
    if is_call(list, k, NUMBER) {
        0 < a_of(list, k)
    } else {
        is_call(list, k, VAR)
    }
}

fn is_for(list: &[u32], k: u32, step: bool) -> bool
    ensures { result ≡ is_for (flag_of step) (rec_of list.now k) }
{
    is_call(list, k, FOR) && b_of(list, k) == u32::from(step)
}

// The word of NEXT is document 01's: the symbol plus 1, or 0 where it names none.
fn is_next_of(list: &[u32], f: u32, k: u32) -> bool
    ensures { result ≡ is_next_of (rec_of list.now f) (rec_of list.now k) }
{
    let a = a_of(list, k);
    is_call(list, k, NEXT) && (a == 0 || a - 1 == a_of(list, f))
}

// With a step a delay has a record more: as one function with a flag most lines of this and of make_delay would test it.
#[tactic(auto, unfolding(recorder::specs::Mem::delay_at))]
fn is_delay(list: &[u32], at: u16) -> bool
    ensures { result ≡ delay_at list.now at }
{
    let k = at as u32;
    is_start(list, k)
        && is_end(list, k + 1)
        && is_for(list, k + 2, false)
        && is_next_of(list, k + 2, k + 3)
}

#[tactic(auto, unfolding(recorder::specs::Mem::stepped_at))]
fn is_stepped_delay(list: &[u32], at: u16) -> bool
    ensures { result ≡ stepped_at list.now at }
{
    let k = at as u32;
    is_start(list, k)
        && is_end(list, k + 1)
        && is_one(list, k + 2)
        && is_for(list, k + 3, true)
        && is_next_of(list, k + 3, k + 4)
}

// "It becomes no-op, end, (no-op), SLEEP, no-op."
#[tactic(auto, unfolding(recorder::specs::Mem::delayed_at))]
fn make_delay(list: &mut [u32], at: u16)
    ensures { list.new ≡ delayed_at list.old at }
{
    let k = at as u32;
    rewrite_at(list, k, Call::NoOp);
    whole_at(list, k + 1);
    rewrite_at(list, k + 2, Call::Op(SLEEP, 1));
    rewrite_at(list, k + 3, Call::NoOp);
}

#[tactic(auto, unfolding(recorder::specs::Mem::stepped_delayed_at))]
fn make_stepped_delay(list: &mut [u32], at: u16)
    ensures { list.new ≡ stepped_delayed_at list.old at }
{
    let k = at as u32;
    rewrite_at(list, k, Call::NoOp);
    whole_at(list, k + 1);
    rewrite_at(list, k + 2, Call::NoOp);
    rewrite_at(list, k + 3, Call::Op(SLEEP, 1));
    rewrite_at(list, k + 4, Call::NoOp);
}

#[tactic(auto, unfolding(recorder::specs::Mem::delay_list))]
fn delay_step(list: &mut [u32], at: u16)
    ensures { list.new ≡ delay_list list.old at }
{
    if is_delay(list, at) {
        make_delay(list, at);
    } else if is_stepped_delay(list, at) {
        make_stepped_delay(list, at);
    }
}

// The record at k of the one pass: a WHILE, perhaps a WEND, or a number, where a delay may start; any other is passed over.
fn loop_step(list: &mut [u32], top: u32, k: u16) -> u32
    ensures { (list.new ≡ while_list (delay_list list.old k) top k) × (result ≡ while_top (delay_list list.old k) top k) }
{
    match call_of(list, k as u32) as u8 {
        NUMBER => {
            delay_step(list, k);
            top
        }
        OP | WHILE => while_step(list, top, k),
        _ => top,
    }
}

// patch_while_instr, but for the WHILEs left open, and convert_for_loop_to_sleep of the Rust: the two passes made as one. Returns
// the last WHILE left open, plus 1, or 0. `n` is how many records the list has: of a list cut to them the clause would have to say what
// stays behind it.
fn close_loops(list: &mut [u32], n: u16) -> u32
    ensures { (list.new ≡ delays_from (whiles_from list.old 0 0 n) 0 n) × (result ≡ top_from list.old 0 0 n) }
{
    let mut top: u32 = 0;
    for k in 0..n {
        top = loop_step(list, top, k);
    }
    top
}

// The unit of a sigil's code, 0 for none: document 01's word for a sigil.
fn sigil_of(c: u32) -> u32
    ensures { result ≡ sigil_of c }
{
    match c {
        DOLLAR_CODE => DOLLAR as u32,
        PERCENT_CODE => PERCENT as u32,
        _ => 0,
    }
}

// An entry as document 01 has it: a name's head has its kind in place of the tag, its last word its sigil alone.
fn unlink_at(book: &mut [u32], k: usize)
    ensures { book.new ≡ unlink_at book.old k }
{
    if k < book.len() / ENTRY {
        let i = ENTRY * k;
        if 127 < kind_at(book, i) {
            let head = word_of(EntryKind::Name as u8, word_at(book, i));
            let last = sigil_of(word_at(book, i + EXTRA) % 4);
            book[i] = head;
            book[i + EXTRA] = last;
        }
    }
}

// The book as document 01 has it: the names have no tags and are in no tree any more. The book is not cut to the known entries: the
// clause says, too, that what stands behind them stays.
pub fn unlink_names(book: &mut [u32], known: usize)
    ensures { book.new ≡ unlink_from book.old 0 known }
{
    for k in 0..known {
        unlink_at(book, k);
    }
}

// The names, WHILEs, delays, and End on the last line.
pub fn clean_up(code: &mut CodeGen)
    ensures same { SameLoans code.old code.new }
    ensures value { mem_of code.new ≡ clean_up (mem_of code.old) }
{
    let known = code.known();
    unlink_names(code.book, known);
    let n = present_of(code.list.len(), code.st.records);
    let top = close_loops(code.list, n);
    open_whiles(code, top, n);
    code.emit(Range { start: 0, end: 0 }, Call::Op(END, 0))
}

// Document 01's program: reads the word count, the unit count, the words and the units of one input and prints its listing.
#![tactic(auto)]

ghost use Rattle.std.specs.Prelude.{◌≡◌, ◌≤◌, length, Some, OnOk, IfOk, IfSome, drop, slice_index};
ghost use Rattle.std.specs.Io.KnownBytes.{Appends, Consumes};
ghost use Rattle.recorder.specs.Word.{kind, payload};
ghost use Rattle.sheet.specs.Check.{refusal_number};
ghost use Rattle.rules.specs.Outcome.{lengths, outcome};
ghost use Rattle.compiler.specs.Answered.{answer_of, outcome_of};
ghost use Rattle.listing.specs.Form.{form_bytes};
ghost use Rattle.listing.specs.Note.{IsNote};
ghost use Rattle.listing.specs.Text.{record_text, note_text, records_text, notes_text, refusal_line, listing_text};

use compiler::Answer;
use recorder::word::{Range, kind_of, payload_of, range_of};
use sheet::form::Refusal;
use std::io::{BufReader, BufWriter, Write};
use std::{fmt, io};

// A record as it is listed.
#[derive(Clone, Copy)]
struct Record {
    address: usize,
    line: u32,
    call: u32,
    arguments: [u32; 3],
}

impl Record {
    fn at(address: usize, words: [u32; 5]) -> Self
        ensures address { result.address ≡ address }
        ensures line { result.line ≡ payload (slice_index words 0) }
        ensures call { result.call ≡ kind (slice_index words 0) }
        ensures arguments { result.arguments ≡ drop 2 words }
    {
        let [head, _, a, b, c] = words;
        Record {
            address,
            line: payload_of(head),
            call: kind_of(head),
            arguments: [a, b, c],
        }
    }
}

impl fmt::Display for Record {
    ghost output = { λ r. Some (record_text r.address r.line r.call r.arguments) };

    fn fmt<W: fmt::Write>(&self, f: &mut fmt::Formatter<W>) -> fmt::Result {
        let [a, b, c] = self.arguments;
        write!(
            f,
            "{} {} {} {a} {b} {c}",
            self.address, self.line, self.call
        )
    }
}

// A note as it is listed.
#[derive(Clone, Copy)]
struct Note {
    class: u32,
    line: u32,
    range: Range,
}

impl From<[u32; 4]> for Note {
    ghost from_gives = { IsNote };

    fn from(words: [u32; 4]) -> Self {
        let [head, range, _, _] = words;
        Note {
            class: kind_of(head),
            line: payload_of(head),
            range: range_of(range),
        }
    }
}

impl fmt::Display for Note {
    ghost output = { λ n. Some (note_text n.class n.line n.range.start n.range.end) };

    fn fmt<W: fmt::Write>(&self, f: &mut fmt::Formatter<W>) -> fmt::Result {
        let Range { start, end } = self.range;
        write!(f, "note {} {} {start} {end}", self.class, self.line)
    }
}

// A line for each of so many records, in the order of their addresses.
fn print_records<W: Write>(out: &mut W, list: &[u32], count: u32) -> io::Result<()>
    ensures { OnOk result
        (Appends (W.contents out.old) (W.contents out.new) (records_text list.now count)) }
{
    let (rows, _) = list.as_chunks::<5>();
    let rows = &rows[..feed::least(count, rows.len())];
    for (address, words) in rows.iter().enumerate() {
        writeln!(out, "{}", Record::at(address, *words))?;
    }
    Ok(())
}

// A line for each of so many notes. Records have five words and an address, notes four and none: one function for both would take
// size, row and address as parameters.
fn print_notes<W: Write>(out: &mut W, notes: &[u32], count: usize) -> io::Result<()>
    ensures { OnOk result
        (Appends (W.contents out.old) (W.contents out.new) (notes_text notes.now count)) }
{
    let (rows, _) = notes.as_chunks::<4>();
    let rows = &rows[..count.min(rows.len())];
    for words in rows {
        writeln!(out, "{}", Note::from(*words))?;
    }
    Ok(())
}

fn print_refusal<W: Write>(out: &mut W, refusal: Refusal) -> io::Result<()>
    ensures { OnOk result
        (Appends (W.contents out.old) (W.contents out.new) (refusal_line (refusal_number refusal))) }
{
    writeln!(out, "refused {}", refusal.number())
}

// The listing: the refusal alone, or the records and then the notes.
fn print_listing<W: Write>(
    out: &mut W,
    answer: Answer,
    list: &[u32],
    notes: &[u32],
) -> io::Result<()>
    ensures { OnOk result (Appends (W.contents out.old) (W.contents out.new)
        (listing_text answer list.now notes.now)) }
{
    match answer {
        Ok(sizes) => {
            print_records(out, list, sizes.records)?;
            print_notes(out, notes, sizes.notes)
        }
        Err(refusal) => print_refusal(out, refusal),
    }
}

// "Its buffers suffice": so many words make at most 2,730 records of five words, 4,096 notes and 2,048 entries of four.
const WORDS: usize = 2048;

const LIST: usize = 13650;

const NOTES: usize = 16384;

const BOOK: usize = 8192;

// What is lent to be written. Arrays, as document 01 asks; replay's are Vecs, since the prover's stack does not hold an array of
// 524,288 words.
#[derive(Drop)]
struct Buffers {
    list: [u32; LIST],
    notes: [u32; NOTES],
    book: [u32; BOOK],
    work: [u32; WORDS],
}

impl Buffers {
    // Compiles a form: for at most 2,048 words none of the refusals 9 to 11 comes.
    fn compile_form(&mut self, words: &[u32], units: &[u16]) -> Answer
        ensures outcome { outcome_of result self.new.list self.new.notes self.new.book self.new.work
            ≡ outcome words.now units.now (lengths (length self.old.list) (length self.old.notes)
            (length self.old.book) (length self.old.work)) }
        ensures suffices { length words.now ≤ 2048 → (answer_of result).refusal ≤ 8 }
    {
        compiler::compile(
            words,
            units,
            &mut self.list,
            &mut self.notes,
            &mut self.book,
            &mut self.work,
        )
    }
}

// A form: its sheet and its text.
#[derive(Clone, Copy)]
struct Form<'a> {
    words: &'a [u32],
    units: &'a [u16],
}

impl<'a> Form<'a> {
    // The word count, the unit count, the words and the units; none if it is above 2,048 of either.
    fn read<R: io::Read>(
        input: &mut R,
        words: &'a mut [u32; WORDS],
        units: &'a mut [u16; WORDS],
    ) -> io::Result<Option<Self>>
        ensures bytes { IfOk result (λ o. IfSome o
            (λ f. Consumes (R.remaining input.old) (R.remaining input.new)
            (form_bytes f.words.now f.units.now))) }
        ensures most { IfOk result
            (λ o. IfSome o (λ f. (length f.words.now ≤ 2048) × (length f.units.now ≤ 2048))) }
    {
        let word_count: u32 = feed::read_number(input)?;
        let unit_count: u32 = feed::read_number(input)?;
        if word_count > 2048 || unit_count > 2048 {
            return Ok(None);
        }
        let words = feed::read_numbers(input, words, word_count)?;
        let units = feed::read_numbers(input, units, unit_count)?;
        Ok(Some(Form { words, units }))
    }
}

fn main(rt: HostRuntime) -> io::Result<()> {
    let mut words = [0u32; WORDS];
    let mut units = [0u16; WORDS];
    let mut buffers = Buffers {
        list: [0; LIST],
        notes: [0; NOTES],
        book: [0; BOOK],
        work: [0; WORDS],
    };
    let mut input = BufReader::new(rt.alloc(), rt.reader())?;
    let mut out = BufWriter::new(rt.alloc(), io::writer(&rt))?;
    // Short input is refused as too long is.
    let form = Form::read(&mut input, &mut words, &mut units);
    match feed::unless_ended(form)?.flatten() {
        Some(form) => {
            let answer = buffers.compile_form(form.words, form.units);
            print_listing(&mut out, answer, &buffers.list, &buffers.notes)?;
        }
        None => print_refusal(&mut out, Refusal::TooLong)?,
    }
    out.flush()
}

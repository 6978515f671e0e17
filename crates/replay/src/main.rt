// Reads inputs in the replay format from standard input, back to back, and prints each one's whole answer: a line of five
// numbers, then a line for each record, note and book entry.
#![tactic(auto)]

ghost use Rattle.std.specs.Prelude.{OnOk};
ghost use Rattle.std.specs.Io.KnownBytes.{Appends};
ghost use Rattle.feed.specs.Text.{line_of};
ghost use Rattle.replay.specs.Text.{counts_text, answer_text};

use compiler::{Answer, Sizes};
use feed::Input;
use std::alloc::{AllocError, Global};
use std::io;
use std::io::{BufReader, BufWriter, Write};

// What is lent to be written. An accepted sheet of 65,536 words has at most 65,535 records, 2 notes a word and 1 entry a word.
#[derive(Drop)]
struct Buffers {
    list: Vec<u32>,
    notes: Vec<u32>,
    book: Vec<u32>,
    work: Vec<u32>,
}

impl Buffers {
    fn new(alloc: Global) -> Result<Self, AllocError> {
        Ok(Buffers {
            list: vec![in alloc; 0; 327680]?,
            notes: vec![in alloc; 0; 524288]?,
            book: vec![in alloc; 0; 262144]?,
            work: vec![in alloc; 0; 65537]?,
        })
    }

    // Prints the answer to an input. The counts are those of the input; a buffer that it asks to be longer is lent whole, and no
    // answer outgrows it.
    fn answer<W: Write>(&mut self, out: &mut W, input: Input<'_>) -> io::Result<()> {
        let counts = input.counts;
        let list = front(&mut self.list, counts.list);
        let notes = front(&mut self.notes, counts.notes);
        let book = front(&mut self.book, counts.book);
        let work = front(&mut self.work, counts.work);
        let answer = compiler::compile(input.words, input.units, list, notes, book, work);
        print_answer(out, answer, list, notes, book)
    }
}

// The front of a buffer, as long as the count says, or the whole buffer where it is shorter.
fn front(buffer: &mut [u32], count: u32) -> &mut [u32] {
    let fitting = feed::least(count, buffer.len());
    &mut buffer[..fitting]
}

// An answer's five numbers on a line. Zeros where there are none are the line's form, which the oracle's stored output has, too.
fn print_counts<W: Write>(out: &mut W, refusal: u32, place: usize, sizes: &Sizes) -> io::Result<()>
    ensures { OnOk result (Appends (W.contents out.old) (W.contents out.new)
        (line_of (counts_text refusal place sizes.now.records sizes.now.notes sizes.now.entries))) }
{
    writeln!(
        out,
        "answer {} {} {} {} {}",
        refusal, place, sizes.records, sizes.notes, sizes.entries
    )
}

// The answer's numbers on a line, and then each record, note and entry.
fn print_answer<W: Write>(
    out: &mut W,
    answer: Answer,
    list: &[u32],
    notes: &[u32],
    book: &[u32],
) -> io::Result<()>
    ensures { OnOk result (Appends (W.contents out.old) (W.contents out.new)
        (answer_text answer list.now notes.now book.now)) }
{
    match answer {
        Ok(sizes) => {
            print_counts(out, 0, 0, &sizes)?;
            feed::print_chunks(out, "r", list.as_chunks::<5>().0, sizes.records as usize)?;
            feed::print_chunks(out, "n", notes.as_chunks::<4>().0, sizes.notes)?;
            feed::print_chunks(out, "b", book.as_chunks::<4>().0, sizes.entries)
        }
        Err(refusal) => {
            let none = Sizes::default();
            print_counts(out, refusal.number(), refusal.place(), &none)
        }
    }
}

// Sheet and text are one longer than what is accepted, so too much is told as such. So much stands on the heap. Nothing says that
// the input ends, so the turns are counted up to a number that no run uses up.
fn main(rt: HostRuntime) -> io::Result<()> {
    let mut words = vec![in rt.alloc(); 0u32; 65537]?;
    let mut units = vec![in rt.alloc(); 0u16; 65537]?;
    let mut buffers = Buffers::new(rt.alloc())?;
    let mut input = BufReader::new(rt.alloc(), rt.reader())?;
    let mut out = BufWriter::new(rt.alloc(), io::writer(&rt))?;
    for _ in 0..u64::MAX {
        let next = Input::read(&mut input, &mut words, &mut units);
        let Some(next) = feed::unless_ended(next)? else {
            break;
        };
        buffers.answer(&mut out, next)?;
    }
    out.flush()
}

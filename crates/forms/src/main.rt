// Reads inputs in the replay format from standard input, back to back, and prints each one's refusal and place.
#![tactic(auto)]

ghost use Rattle.std.specs.Prelude.{◌++◌, OnOk};
ghost use Rattle.std.specs.Fmt.{decimal};
ghost use Rattle.std.specs.Io.KnownBytes.{Appends};
ghost use Rattle.feed.specs.Text.{line_of, next_text};
ghost use Rattle.sheet.specs.Check.{checked};
ghost use Rattle.sheet.specs.CheckAnswer.{answer_number, answer_place};

use feed::Input;
use std::io;
use std::io::{BufReader, BufWriter, Write};

// The number of a refusal and its place, on a line. 0 and 0 where nothing is refused are the line's form, which the oracle's
// stored output has, too.
fn print_refusal<W: Write>(out: &mut W, number: u32, place: usize) -> io::Result<()>
    ensures { OnOk result (Appends (W.contents out.old) (W.contents out.new)
        (line_of (decimal number ++ next_text place))) }
{
    writeln!(out, "{number} {place}")
}

// Prints the answer to an input.
fn answer<W: Write>(out: &mut W, input: Input<'_>) -> io::Result<()>
    ensures { OnOk result (Appends (W.contents out.old) (W.contents out.new)
        (line_of (decimal (answer_number (checked input.entry.words.now input.entry.units.now input.entry.counts.work))
        ++ next_text (answer_place (checked input.entry.words.now input.entry.units.now input.entry.counts.work))))) }
{
    match acceptance::check(input.words, input.units, input.counts.work as usize) {
        Ok(()) => print_refusal(out, 0, 0),
        Err(refusal) => print_refusal(out, refusal.number(), refusal.place()),
    }
}

// The arrays are one longer than what is accepted, so too much is told as such. Nothing says that the input ends, so the turns are
// counted up to a number that no run uses up.
// replay has the same loop: one in feed would take a closure that writes and may fail, and ask in public that it may be called.
fn main(rt: HostRuntime) -> io::Result<()> {
    let mut words = [0u32; 65537];
    let mut units = [0u16; 65537];
    let mut input = BufReader::new(rt.alloc(), rt.reader())?;
    let mut out = BufWriter::new(rt.alloc(), io::writer(&rt))?;
    for _ in 0..u64::MAX {
        let next = Input::read(&mut input, &mut words, &mut units);
        let Some(next) = feed::unless_ended(next)? else {
            break;
        };
        answer(&mut out, next)?;
    }
    out.flush()
}

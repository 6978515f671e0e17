// What the programs read and print: numbers in little endian, inputs in the replay format, rows of numbers. A clause on bytes
// speaks of a reader or a writer whose bytes are known, and of a call that does not fail.
#![tactic(auto)]

ghost use Rattle.std.specs.Prelude.{◌≡◌, ◌≢◌, ◌≤◌, ◌+◌, ℕ, List, ◌++◌, length, min, refl, IfOk, OnOk, IfErr, Some, None, Ok, Err};
ghost use Rattle.std.specs.Int.{w16, w32, to_le_bytes};
ghost use Rattle.std.specs.Io.KnownBytes.{Consumes, Appends};
ghost use Rattle.std.specs.IoError.{error_kind};
ghost use Rattle.std.specs.List.{flat_map};
ghost use Rattle.std.proofs.Common.{lit≤};
ghost use Rattle.feed.specs.declared.TheConstants.{WIDEST};
ghost use Rattle.feed.specs.Format.{counts_bytes, input_bytes};
ghost use Rattle.feed.specs.Text.{row_text, rows_from, rows_text};

use std::io::ErrorKind;
use std::{fmt, io};

/// How many bytes the widest of the numbers below stands in: an array cannot be as long as a type parameter's WIDTH.
const WIDEST: usize = 4;

/// A number that stands in so many bytes, the lowest first.
pub trait Number: Copy {
    ghost WIDTH: { ℕ };

    // The bytes that the number stands in.
    ghost bytes_of: { Self → List ℕ };

    const WIDTH: usize;

    fn from_bytes(bytes: &[u8]) -> Self
        requires { length bytes.now ≡ WIDTH }
        ensures { bytes_of result ≡ bytes.now };

    ghost fits: { WIDTH ≤ WIDEST };

    ghost width: { (n : Self) → length (bytes_of n) ≡ WIDTH };
}

impl Number for u16 {
    ghost WIDTH = { 2 };

    ghost bytes_of = { to_le_bytes w16 };

    ghost fits = { lit≤ tt };

    ghost width = { λ _. refl };

    const WIDTH: usize = 2;

    fn from_bytes(bytes: &[u8]) -> Self {
        u16::from_le_bytes([bytes[0], bytes[1]])
    }
}

impl Number for u32 {
    ghost WIDTH = { 4 };

    ghost bytes_of = { to_le_bytes w32 };

    ghost fits = { lit≤ tt };

    ghost width = { λ _. refl };

    const WIDTH: usize = 4;

    fn from_bytes(bytes: &[u8]) -> Self {
        u32::from_le_bytes([bytes[0], bytes[1], bytes[2], bytes[3]])
    }
}

/// The next number of the input.
pub fn read_number<N: Number, R: io::Read>(input: &mut R) -> io::Result<N>
    ensures { IfOk result
        (λ n. Consumes (R.remaining input.old) (R.remaining input.new) (N.bytes_of n)) }
{
    let mut bytes = [0u8; WIDEST];
    let bytes = &mut bytes[..N::WIDTH];
    input.read_exact(bytes)?;
    Ok(N::from_bytes(bytes))
}

// As many numbers as there is room for.
fn fill<N: Number, R: io::Read>(input: &mut R, numbers: &mut [N]) -> io::Result<()>
    ensures { OnOk result
        (Consumes (R.remaining input.old) (R.remaining input.new) (flat_map N.bytes_of numbers.new)) }
{
    for number in numbers.iter_mut() {
        *number = read_number(input)?;
    }
    Ok(())
}

// Reads so many numbers and keeps none.
fn pass_over<N: Number, R: io::Read>(input: &mut R, count: usize) -> io::Result<()>
    ensures { OnOk result ((passed : List N) × (length passed ≡ count)
        × Consumes (R.remaining input.old) (R.remaining input.new) (flat_map N.bytes_of passed)) }
{
    for _i in 0..count {
        let _: N = read_number(input)?;
    }
    Ok(())
}

/// The next numbers of the input, so many as the count says. What does not fit the buffer is read and passed over.
pub fn read_numbers<'a, N: Number, R: io::Read>(
    input: &mut R,
    buffer: &'a mut [N],
    count: u32,
) -> io::Result<&'a [N]>
    ensures kept { IfOk result (λ kept. length kept.now ≡ min count (length buffer.old)) }
    ensures bytes { IfOk result (λ kept. (passed : List N) × (length kept.now + length passed ≡ count)
        × Consumes (R.remaining input.old) (R.remaining input.new)
        (flat_map N.bytes_of (kept.now ++ passed))) }
{
    let fitting = least(count, buffer.len());
    let kept = &mut buffer[..fitting];
    fill(input, kept)?;
    pass_over::<N, R>(input, count as usize - fitting)?;
    Ok(kept)
}

/// What an input begins with: how many words and units follow, and how many words list, notes, book and work have.
#[derive(Clone, Copy)]
pub struct Counts {
    pub words: u32,
    pub units: u32,
    pub list: u32,
    pub notes: u32,
    pub book: u32,
    pub work: u32,
}

impl Counts {
    fn read<R: io::Read>(input: &mut R) -> io::Result<Self>
        ensures { IfOk result
            (λ c. Consumes (R.remaining input.old) (R.remaining input.new) (counts_bytes c)) }
    {
        Ok(Counts {
            words: read_number(input)?,
            units: read_number(input)?,
            list: read_number(input)?,
            notes: read_number(input)?,
            book: read_number(input)?,
            work: read_number(input)?,
        })
    }
}

/// An input in the replay format: its counts, and of its words and units as many as fit.
#[derive(Clone, Copy)]
pub struct Input<'a> {
    pub counts: Counts,
    pub words: &'a [u32],
    pub units: &'a [u16],
}

impl<'a> Input<'a> {
    pub fn read<R: io::Read>(
        input: &mut R,
        words: &'a mut [u32],
        units: &'a mut [u16],
    ) -> io::Result<Self>
        ensures words { IfOk result (λ i. length i.words.now ≡ min i.counts.words (length words.old)) }
        ensures units { IfOk result (λ i. length i.units.now ≡ min i.counts.units (length units.old)) }
        ensures bytes { IfOk result (λ i. (more_words more_units : List ℕ)
            × (length i.words.now + length more_words ≡ i.counts.words)
            × (length i.units.now + length more_units ≡ i.counts.units)
            × Consumes (R.remaining input.old) (R.remaining input.new)
            (input_bytes i.counts (i.words.now ++ more_words) (i.units.now ++ more_units))) }
    {
        let counts = Counts::read(input)?;
        let words = read_numbers(input, words, counts.words)?;
        let units = read_numbers(input, units, counts.units)?;
        Ok(Input {
            counts,
            words,
            units,
        })
    }
}

/// What was read, or none where the input ended before.
pub fn unless_ended<T>(read: io::Result<T>) -> io::Result<Option<T>>
    ensures read { IfOk read (λ value. result ≡ Ok (Some value)) }
    ensures ended { IfErr read (λ e. error_kind e ≡ ErrorKind.UnexpectedEof → result ≡ Ok None) }
    ensures failed { IfErr read (λ e. error_kind e ≢ ErrorKind.UnexpectedEof → result ≡ Err e) }
{
    match read {
        Ok(value) => Ok(Some(value)),
        Err(error) if error.kind() == ErrorKind::UnexpectedEof => Ok(None),
        Err(error) => Err(error),
    }
}

/// A count of what was read, cut to what there is.
pub fn least(n: u32, most: usize) -> usize
    ensures least { result ≡ min n most }
    ensures fits { result ≤ most }
{
    most.min(n as usize)
}

// A row of numbers as it is printed: its mark, and each number behind a blank.
#[derive(Clone, Copy)]
struct Row<'a> {
    mark: &'a str,
    numbers: &'a [u32],
}

impl fmt::Display for Row<'_> {
    ghost output = { λ r. Some (row_text r.mark.now r.numbers.now) };

    fn fmt<W: fmt::Write>(&self, f: &mut fmt::Formatter<W>) -> fmt::Result {
        f.write_str(self.mark)?;
        for number in self.numbers {
            write!(f, " {number}")?;
        }
        Ok(())
    }
}

/// So many of the rows, each on a line. The count is cut here, once for three calls: an answer's type does not say that its counts
/// are within the buffers.
pub fn print_chunks<const SIZE: usize, W: io::Write>(
    out: &mut W,
    mark: &str,
    rows: &[[u32; SIZE]],
    count: usize,
) -> io::Result<()>
    ensures { OnOk result (Appends (W.contents out.old) (W.contents out.new)
        (rows_text mark.now rows.now count)) }
{
    let rows = &rows[..count.min(rows.len())];
    for numbers in rows {
        writeln!(out, "{}", Row { mark, numbers })?;
    }
    Ok(())
}

/// So many rows of that size, from the front of the words, each on a line. It stops without an error at the first row for which
/// fewer words are left. The mark need not be text, so it is written before the row.
pub fn print_rows<W: io::Write>(
    out: &mut W,
    mark: &[u8],
    words: &[u32],
    size: usize,
    count: usize,
) -> io::Result<()>
    ensures { OnOk result (Appends (W.contents out.old) (W.contents out.new)
        (rows_from mark.now words.now size count)) }
{
    let mut rest = words;
    for _i in 0..count {
        if rest.len() < size {
            return Ok(());
        }
        let (numbers, others) = rest.split_at(size);
        out.write_all(mark)?;
        writeln!(out, "{}", Row { mark: "", numbers })?;
        rest = others;
    }
    Ok(())
}

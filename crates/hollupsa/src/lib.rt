// The library's edge: `compile` for programs in C or Rust. include/hollupsa.h declares it and says its contract in words.
#![tactic(auto)]

ghost use Rattle.std.specs.Prelude.{length};
ghost use Rattle.rules.specs.Outcome.{lengths, outcome};
ghost use Rattle.hollupsa.specs.Edge.{Leaves};

// The answer goes into five lent numbers: refusal, place, records, notes, entries.
#[unsafe(no_mangle)]
pub extern "C" fn hollupsa_compile(
    sheet: &[u32],
    text: &[u16],
    list: &mut [u32],
    notes: &mut [u32],
    book: &mut [u32],
    work: &mut [u32],
    answer: &mut [usize; 5],
)
    ensures { Leaves (outcome sheet.now text.now (lengths (length list.old) (length notes.old) (length book.old) (length work.old))) answer.new list.new notes.new book.new work.new }
{
    *answer = match compiler::compile(sheet, text, list, notes, book, work) {
        Ok(sizes) => [0, 0, sizes.records as usize, sizes.notes, sizes.entries],
        Err(refusal) => [refusal.number() as usize, refusal.place(), 0, 0, 0],
    };
}

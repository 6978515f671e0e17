// The compiler of plot forms: a sheet and its text, lent to be read; list, notes, book and work, lent to be written.
#![tactic(auto)]

ghost use Rattle.std.specs.Prelude.{◌≡◌, ◌*◌, ◌<◌, length, replicate};
ghost use Rattle.recorder.specs.Numbers.{sheet_limit};
ghost use Rattle.recorder.specs.Word.{payload_at};
ghost use Rattle.recorder.specs.Mem.{mem, nothing};
ghost use Rattle.recorder.specs.CodeGen.{mem_of, SameLoans};
ghost use Rattle.sheet.specs.Check.{refusal_number, refusal_place};
ghost use Rattle.rules.specs.Outcome.{lengths, refused, finished, sized, outcome};
ghost use Rattle.rules.specs.MemAnswer.{mem_sized};
ghost use Rattle.compiler.specs.Answered.{outcome_of};
ghost use Rattle.compiler.specs.Inside.{outcome_in, lengths_in};

use recorder::codegen::{CodeGen, State, clear, most_records};
use sheet::form::Refusal;

// How many records, notes and book entries a sheet makes. Document 01's answer is these numbers, and the buffers stay the caller's,
// as in C: so who reads has a buffer and a count.
#[derive(Clone, Copy, PartialEq, Eq, Default)]
pub struct Sizes {
    pub records: u32,
    pub notes: usize,
    pub entries: usize,
}

pub type Answer = Result<Sizes, Refusal>;

// Zeros throughout.
fn clear_all(code: &mut CodeGen, work: &mut [u32])
    ensures same { SameLoans code.old code.new }
    ensures value { mem_of code.new ≡ mem (replicate (length code.old.list.now) 0) (replicate (length code.old.notes.now) 0) (replicate (length code.old.book.now) 0) code.old.st }
    ensures work { work.new ≡ replicate (length work.old) 0 }
{
    clear(code.list);
    clear(code.notes);
    clear(code.book);
    clear(work);
}

// A refusal leaves nothing but zeros.
fn refuse(code: &mut CodeGen, work: &mut [u32], refusal: Refusal) -> Answer
    ensures same { SameLoans code.old code.new }
    ensures value { outcome_in result code.new work.new ≡ refused (refusal_number refusal) (refusal_place refusal) (lengths_in code.old work.old) }
{
    clear_all(code, work);
    Err(refusal)
}

// Closed up, with all records in the list: do notes and book fit, too?
fn sized_up(code: &mut CodeGen, work: &mut [u32]) -> Answer
    ensures same { SameLoans code.old code.new }
    ensures value { outcome_in result code.new work.new ≡ mem_sized (lengths_in code.old work.old) (mem_of code.old) }
{
    if code.st.notes_full {
        return refuse(code, work, Refusal::NotesTooShort);
    }
    if code.st.book_full {
        return refuse(code, work, Refusal::BookTooShort);
    }
    clear(work);
    Ok(Sizes {
        records: code.current_addr().0,
        notes: code.st.notes,
        entries: code.st.entries,
    })
}

// A sheet whose form is good, with three words of work for each line and one more. work is lent beside code, since the rules'
// memory has none; a Source is made for each line, since it says where that begins.
fn compile_accepted(sheet: &[u32], text: &[u16], code: &mut CodeGen, work: &mut [u32]) -> Answer
    ensures same { SameLoans code.old code.new }
    ensures value { code.old.st ≡ nothing → 3 * payload_at sheet.now 0 < length work.old → payload_at sheet.now 0 < sheet_limit → outcome_in result code.new work.new ≡ sized (finished sheet.now text.now) (lengths_in code.old work.old) }
{
    clear_all(code, work);
    let n = program::line::compile_prog(sheet, text, code, work);
    if code.st.list_full {
        return refuse(code, work, Refusal::ListTooShort);
    }
    if most_records(code.list.len()) <= code.st.records {
        return refuse(code, work, Refusal::ListTooShort);
    }
    resolution::resolve::close_up(code, work, n);
    sized_up(code, work)
}

// The sheet checked, and compiled where its form is good.
#[tactic(auto, unfolding(rules::specs::Outcome::outcome), using(walk::proofs::LinesFit::lines_few, walk::proofs::LinesFit::lines_fit))]
fn compile_checked(sheet: &[u32], text: &[u16], code: &mut CodeGen, work: &mut [u32]) -> Answer
    ensures same { SameLoans code.old code.new }
    ensures value { code.old.st ≡ nothing → outcome_in result code.new work.new ≡ outcome sheet.now text.now (lengths_in code.old work.old) }
{
    match acceptance::check(sheet, text, work.len()) {
        Ok(()) => compile_accepted(sheet, text, code, work),
        Err(refusal) => refuse(code, work, refusal),
    }
}

// A call on whichever words, text and lent memory leaves what document 01's rules say: the finished list, notes and book with
// zeros behind them, or zeros throughout and a refusal with its place.
pub fn compile(
    sheet: &[u32],
    text: &[u16],
    list: &mut [u32],
    notes: &mut [u32],
    book: &mut [u32],
    work: &mut [u32],
) -> Answer
    ensures { outcome_of result list.new notes.new book.new work.new ≡ outcome sheet.now text.now (lengths (length list.old) (length notes.old) (length book.old) (length work.old)) }
{
    let mut code = CodeGen {
        list,
        notes,
        book,
        st: State::empty(),
    };
    let answer = compile_checked(sheet, text, &mut code, work);
    let CodeGen { .. } = code;
    answer
}

// "After the lines: jumps in order of pending, then RESTOREs": resolve_labels and resolve_datum_indices of compiler.rs.
ghost use Rattle.std.specs.Prelude.{◌≡◌, ◌<◌, List, ℕ, MatchOption};
ghost use Rattle.recorder.specs.CallNumbers.{class_number, severity_of};
ghost use Rattle.recorder.specs.Ideal.{missing};
ghost use Rattle.recorder.specs.Marks.{Mark};
ghost use Rattle.labels.specs.MarksIn.{MarksIn};
ghost use Rattle.labels.specs.Indexed.{Indexed};
ghost use Rattle.recorder.specs.Mem.{Mem, mem_r, as_word, records_in, look_at, patched, settle_args};
ghost use Rattle.recorder.specs.CodeGen.{mem_of, SameLoans};
ghost use Rattle.rules.specs.Program.{Lines, Waiting, jumps, restores, settle_by, settle_waiting, resolve, resolve_labels, resolve_datum_indices, close_up};
ghost use Rattle.resolution.specs.Looks.{as_look, search_of};

use labels::chains::Chains;
use recorder::call::{Class, GOSUB, GOTO, RESTORE};
use recorder::codegen::{CodeGen, Looked};
use recorder::label::{Addr, DatumIndex, Label};
use recorder::word::unpacked;

// A line's label has 16 bits: no line has a larger one.
fn narrow_label(label: u32) -> Option<Label>
    ensures { MatchOption result (65535 < label) (λ l. l.0 ≡ label) }
{
    u16::try_from(label).ok().map(Label)
}

// What a record that waits for a label gets: its line's address, or its first datum's index.
trait Target {
    // What waits for it, by the rules.
    ghost waiting: { Waiting };

    // What the record gets of it.
    ghost number: { Self → ℕ };

    // Whether records of that call wait for it.
    fn is_awaited(call: u32) -> bool
        ensures { result ≡ waiting.waits call };

    // What a label names.
    fn find(chains: &Chains, label: u32) -> Option<Self>
        ensures { (ms : List Mark) → Indexed chains.now ms → search_of number result ≡ waiting.find ms label };

    // The note where the label names none.
    fn missing() -> Class
        ensures { (class_number result ≡ waiting.class) × (severity_of result ≡ waiting.severity) };

    fn settle(self, code: &mut CodeGen, at: Addr)
        ensures same { SameLoans code.old code.new }
        ensures value { mem_of code.new ≡ patched (settle_args (number self)) (mem_of code.old) at.0 };
}

// A jump's target: "2 target missing" where there is no line.
impl Target for Addr {
    ghost waiting = { jumps };

    ghost number = { λ a. a.0 };

    fn is_awaited(call: u32) -> bool {
        call == u32::from(GOTO) || call == u32::from(GOSUB)
    }

    #[tactic(auto, using(crate::proofs::SearchLaws::no_target, crate::proofs::SearchLaws::target_is))]
    fn find(chains: &Chains, label: u32) -> Option<Self> {
        chains.find_label(narrow_label(label)?)
    }

    fn missing() -> Class {
        Class::TargetMissing
    }

    fn settle(self, code: &mut CodeGen, at: Addr) {
        code.settle(at, self)
    }
}

// A RESTORE's target: "3 RESTORE target missing (warning)" where there is no datum.
impl Target for DatumIndex {
    ghost waiting = { restores };

    ghost number = { λ d. d.0 };

    fn is_awaited(call: u32) -> bool {
        call == u32::from(RESTORE)
    }

    #[tactic(auto, using(crate::proofs::SearchLaws::no_start, crate::proofs::SearchLaws::start_is))]
    fn find(chains: &Chains, label: u32) -> Option<Self> {
        chains.find_datum(narrow_label(label)?)
    }

    fn missing() -> Class {
        Class::RestoreTargetMissing
    }

    fn settle(self, code: &mut CodeGen, at: Addr) {
        code.patch_datum_index(at, self)
    }
}

// One whose label is nowhere: it waits no more, and its own line gets a note.
fn miss<T: Target>(code: &mut CodeGen, k: u32, q: Looked)
    ensures same { SameLoans code.old code.new }
    ensures value { (t : List ℕ) → mem_of code.new ≡ settle_by (mem_r t) T.waiting missing k (as_look q) (mem_of code.old) }
{
    code.drop_label(Addr(k));
    let r = unpacked(q.c);
    code.note_at(q.line, T::missing(), r)
}

// The record at k: one that waits gets what its label names, or a note. The lines ms that the chains were made of (Indexed) are the
// rules' list: no value of the code has them, so each contract asks, and close_up answers: index_lines makes Indexed of MarksIn. code
// is written and chains are read, so they are no struct.
// k counts as in the rules, and each call of the recorder is given it as an Addr.
fn settle_waiting<T: Target>(code: &mut CodeGen, chains: &Chains, k: u32)
    ensures same { SameLoans code.old code.new }
    ensures value { (t : List ℕ) (ms : List Mark) → Indexed chains.now ms → mem_of code.new ≡ settle_waiting (mem_r t) T.waiting ms k (look_at code.old.list.now k) (mem_of code.old) }
{
    if !T::is_awaited(code.call_at(Addr(k))) {
        return;
    }
    let q = code.look(Addr(k));
    let Some(label) = q.b.checked_sub(1) else {
        return;
    };
    let Some(target) = T::find(chains, label) else {
        miss::<T>(code, k, q);
        return;
    };
    target.settle(code, Addr(k))
}

fn resolve_waiting<T: Target>(code: &mut CodeGen, chains: &Chains)
    ensures same { SameLoans code.old code.new }
    ensures value { (t : List ℕ) (ms : List Mark) → Indexed chains.now ms → mem_of code.new ≡ resolve (mem_r t) T.waiting ms 0 (as_word (records_in code.old.st)) (mem_of code.old) }
{
    let end = code.current_addr();
    for k in 0..end.0 {
        settle_waiting::<T>(code, chains, k);
    }
}

pub fn resolve_labels(code: &mut CodeGen, chains: &Chains)
    ensures same { SameLoans code.old code.new }
    ensures value { (t : List ℕ) (ms : List Mark) → Indexed chains.now ms → mem_of code.new ≡ resolve_labels (mem_r t) ms 0 (as_word (records_in code.old.st)) (mem_of code.old) }
{
    resolve_waiting::<Addr>(code, chains)
}

pub fn resolve_datum_indices(code: &mut CodeGen, chains: &Chains)
    ensures same { SameLoans code.old code.new }
    ensures value { (t : List ℕ) (ms : List Mark) → Indexed chains.now ms → mem_of code.new ≡ resolve_datum_indices (mem_r t) ms 0 (as_word (records_in code.old.st)) (mem_of code.old) }
{
    resolve_waiting::<DatumIndex>(code, chains)
}

// "Closing up": jumps, RESTOREs, then WHILEs, delays and End. The names' links go. The n lines in work are put into chains.
// The clause assumes of the caller that work holds the n labelled lines of the rules, and zeros behind, a word at least (MarksIn).
// compile_prog leaves it so (`marks` of Programmed, in its own clause) where work was zeros with room for the lines; compile_accepted
// clears work before, and compile_checked has the room of the check (lines_fit and lines_few). CompileLaws of crate compiler puts them
// together (from_zeros, whole_sized), so that the clause of `compile` assumes nothing.
pub fn close_up(code: &mut CodeGen, work: &mut [u32], n: usize)
    ensures same { SameLoans code.old code.new }
    ensures value { (t : List ℕ) (c : Lines Mem) → c.state ≡ mem_of code.old → MarksIn work.old n c.marks → mem_of code.new ≡ close_up (mem_r t) c }
{
    let chains = Chains::index_lines(work, n);
    resolve_labels(code, &chains);
    resolve_datum_indices(code, &chains);
    closing::closing::clean_up(code)
}

// Statements with labels: GOSUB, GOTO, RESTORE and ON. A jump waits for its label.
ghost use Rattle.std.specs.Prelude.{◌≡◌, List, ℕ};
ghost use Rattle.recorder.specs.Word.{label_at, flag_of};
ghost use Rattle.recorder.specs.Mem.{mem_r};
ghost use Rattle.recorder.specs.CodeGen.{mem_of, SameLoans};
ghost use Rattle.sheet.specs.Skip.{skip_repeat};
ghost use Rattle.sheet.specs.Tree.{opt_at, target_at, behind_label};
ghost use Rattle.rules.specs.Stmt.{pending_jump, compile_go, compile_restore, label_or0, on_jumps};
ghost use Rattle.expressions.specs.Body.{Body};
ghost use Rattle.expressions.specs.Lists.{two_on};
ghost use Rattle.jumps.specs.Parts.{target_of, label_of, on_targets_at};

use nodes::source::Source;
use recorder::call::Call;
use recorder::codegen::CodeGen;
use recorder::label::Label;
use recorder::word::Range;
use rules::types::Type;
use sheet::form::Shape;

pub fn target_at(sheet: &[u32], at: usize) -> Option<(Range, Label)>
    ensures { target_of result ≡ opt_at sheet.now (target_at sheet.now) at }
{
    if sheet::leaf::is_absent(sheet, at) {
        None
    } else {
        let r = recorder::word::range_at(sheet, at);
        let l = recorder::label::label_at(sheet, recorder::word::behind(sheet, at));
        Some((r, l))
    }
}

pub fn behind_target(sheet: &[u32], at: usize) -> usize
    ensures { result ≡ behind_label sheet.now at }
{
    let p = recorder::word::behind(sheet, at);
    if sheet::leaf::is_absent(sheet, at) {
        p
    } else {
        recorder::word::behind(sheet, p)
    }
}

fn opt_label_at(sheet: &[u32], at: usize) -> Option<Label>
    ensures { label_of result ≡ opt_at sheet.now (label_at sheet.now) at }
{
    if sheet::leaf::is_absent(sheet, at) {
        None
    } else {
        Some(recorder::label::label_at(sheet, at))
    }
}

// A jump that waits for its label: GOSUB or GOTO. `sub` is the statement's, `r` in an ON each item's own, so they are no struct.
fn pending_jump(code: &mut CodeGen, sub: bool, r: Range, l: Label, lr: Range)
    ensures same { SameLoans code.old code.new }
    ensures value { (t : List ℕ) (base : ℕ) → mem_of code.new ≡ pending_jump (mem_r t) t base (flag_of sub) r l.0 lr (mem_of code.old) }
{
    if sub {
        code.emit(r, Call::Gosub(Some((lr, l))))
    } else {
        code.emit(r, Call::Goto(Some((lr, l))))
    }
}

// An absent label is label 0, and a note on it has the statement's range. Document 01 names let .. else for GOTO's label.
fn compile_go(code: &mut CodeGen, r: Range, sub: bool, o: Option<(Range, Label)>)
    ensures same { SameLoans code.old code.new }
    ensures value { (t : List ℕ) (base : ℕ) → mem_of code.new ≡ compile_go (mem_r t) t base r (flag_of sub) (target_of o) (mem_of code.old) }
{
    let Some((lr, l)) = o else {
        pending_jump(code, sub, r, Label(0), r);
        return;
    };
    pending_jump(code, sub, r, l, lr)
}

// GOSUB, GOTO and RESTORE have three lines each, for their shapes' rules: one over what is made of the target would take that, too.
#[tactic(auto, unfolding(sheet::specs::Tree::stmt_node, rules::specs::Stmt::compile_stmt, sheet::specs::Skip::skip_fields, sheet::specs::Skip::skip_field, sheet::specs::Skip::skip_times, sheet::specs::Skip::skip_pair, sheet::specs::Skip::skip_item))]
pub fn compile_gosub(src: &Source, code: &mut CodeGen, at: usize, r: Range) -> usize
    ensures same { SameLoans code.old code.new }
    ensures value { (t : List ℕ) (base left k : ℕ) → Body src.now.sheet.now t base left Shape.GoSub k r at (mem_of code.old) (mem_of code.new) result }
{
    let o = target_at(src.sheet, at);
    compile_go(code, r, true, o);
    behind_target(src.sheet, at)
}

// Behind its flag, which says whether the word GOTO stands there.
#[tactic(auto, unfolding(sheet::specs::Tree::stmt_node, rules::specs::Stmt::compile_stmt, sheet::specs::Skip::skip_fields, sheet::specs::Skip::skip_field, sheet::specs::Skip::skip_times, sheet::specs::Skip::skip_pair, sheet::specs::Skip::skip_item))]
pub fn compile_goto(src: &Source, code: &mut CodeGen, at: usize, r: Range) -> usize
    ensures same { SameLoans code.old code.new }
    ensures value { (t : List ℕ) (base left k : ℕ) → Body src.now.sheet.now t base left Shape.GoTo k r at (mem_of code.old) (mem_of code.new) result }
{
    let p = recorder::word::behind(src.sheet, at);
    let o = target_at(src.sheet, p);
    compile_go(code, r, false, o);
    behind_target(src.sheet, p)
}

// Document 01 names let .. else for RESTORE's label.
fn restore_node(code: &mut CodeGen, r: Range, o: Option<(Range, Label)>)
    ensures same { SameLoans code.old code.new }
    ensures value { (t : List ℕ) (base : ℕ) → mem_of code.new ≡ compile_restore (mem_r t) t base r (target_of o) (mem_of code.old) }
{
    let Some((lr, l)) = o else {
        code.emit(r, Call::Restore(None));
        return;
    };
    code.emit(r, Call::Restore(Some((lr, l))))
}

pub fn compile_restore(src: &Source, code: &mut CodeGen, at: usize, r: Range) -> usize
    ensures same { SameLoans code.old code.new }
    ensures value { (t : List ℕ) (base left k : ℕ) → Body src.now.sheet.now t base left Shape.Restore k r at (mem_of code.old) (mem_of code.new) result }
{
    let o = target_at(src.sheet, at);
    restore_node(code, r, o);
    behind_target(src.sheet, at)
}

// Document 01 names let .. else for ON's label, too: over compile_go the label would be paired first, to be taken apart there.
fn on_jump(code: &mut CodeGen, sub: bool, r: Range, o: Option<Label>)
    ensures same { SameLoans code.old code.new }
    ensures value { (t : List ℕ) (base : ℕ) → mem_of code.new ≡ pending_jump (mem_r t) t base (flag_of sub) r (label_or0 (label_of o)) r (mem_of code.old) }
{
    let Some(l) = o else {
        pending_jump(code, sub, r, Label(0), r);
        return;
    };
    pending_jump(code, sub, r, l, r)
}

// So many targets, a jump each. It writes code, so no one loop over a closure stands for this and its like: of a closure's calls a
// contract says only that they ran. The words are counted on any sheet: behind its end the place stays, where an iterator would end.
fn on_jumps(src: &Source, code: &mut CodeGen, at: usize, n: u32, sub: bool)
    ensures same { SameLoans code.old code.new }
    ensures value { (t : List ℕ) (base : ℕ) → mem_of code.new ≡ on_jumps (mem_r t) t base (flag_of sub) (on_targets_at src.now.sheet.now n at) (mem_of code.old) }
{
    let mut p = at;
    for _ in 0..n {
        let r = recorder::word::range_at(src.sheet, p);
        let q = recorder::word::behind(src.sheet, p);
        let o = opt_label_at(src.sheet, q);
        on_jump(code, sub, r, o);
        p = recorder::word::behind(src.sheet, q);
    }
}

// The place behind so many targets: two words each, and the end stays; a sum would need bounds of its own against the sheet's end.
#[tactic(auto, unfolding(sheet::specs::Skip::skip_repeat), using(expressions::proofs::Lists::turns))]
fn behind_targets(sheet: &[u32], at: usize, n: u32) -> usize
    ensures { result ≡ skip_repeat sheet.now (two_on sheet.now) n at }
{
    let mut p = at;
    for _ in 0..n {
        let q = recorder::word::behind(sheet, p);
        p = recorder::word::behind(sheet, q);
    }
    p
}

// The targets stand before the flag that says whether they are GOSUB's.
#[tactic(auto, unfolding(sheet::specs::Tree::stmt_node, rules::specs::Stmt::compile_stmt, sheet::specs::Skip::skip_fields, sheet::specs::Skip::skip_field, sheet::specs::Skip::skip_times, sheet::specs::Skip::skip_pair, sheet::specs::Skip::skip_item, rules::specs::Stmt::compile_on, sheet::specs::Skip::skip_list), using(sheet::proofs::Lists::items_length, crate::proofs::JumpLaws::same_jumps))]
pub fn compile_on(src: &Source, code: &mut CodeGen, at: usize, left: usize, r: Range) -> usize
    ensures same { SameLoans code.old code.new }
    ensures value { (k : ℕ) → Body src.now.sheet.now src.now.text.now src.now.base left Shape.On k r at (mem_of code.old) (mem_of code.new) result }
{
    let x = expressions::expr::compile_typed(src, code, at, left, Type::Real);
    let c = expressions::expr::read_payload(src.sheet, x);
    let e = behind_targets(src.sheet, c.at, c.value);
    let sub = recorder::word::payload_at(src.sheet, e) == 1;
    code.emit(r, Call::On(c.value));
    on_jumps(src, code, c.at, c.value, sub);
    recorder::word::behind(src.sheet, e)
}

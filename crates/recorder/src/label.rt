// Labels, addresses and DATA indices are three number types, so that none is taken for another.
ghost use Rattle.std.specs.Prelude.{◌≡◌};
ghost use Rattle.recorder.specs.Word.{label_at};

use crate::number::LABEL_SIZE;

// A line's label.
#[derive(Clone, Copy)]
pub struct Label(pub u16);

// The address of a record: the number of records before it.
#[derive(Clone, Copy)]
pub struct Addr(pub u32);

// The number of a datum among the data.
#[derive(Clone, Copy)]
pub struct DatumIndex(pub u32);

// The label that a word holds.
pub fn label_at(s: &[u32], at: usize) -> Label
    ensures { result.0 ≡ label_at s.now at }
{
    let w = crate::word::word_at(s, at);
    Label((w % LABEL_SIZE) as u16)
}

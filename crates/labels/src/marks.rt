// The labelled lines in lent work, three words each: label, address of the first record, first datum plus 1 (0 if there is none).
ghost use Rattle.std.specs.Prelude.{◌≡◌};
ghost use Rattle.recorder.specs.Mem.{as_word, datum_word};
ghost use Rattle.labels.specs.MarkWords.{mark_list, mark_count};

use recorder::label::{Addr, DatumIndex, Label};

// A first datum in a word: its number plus 1, 0 if there is none.
fn datum_word(first: Option<DatumIndex>) -> u32
    ensures { result ≡ as_word (datum_word first) }
{
    first.map_or(0, |d| d.0.wrapping_add(1))
}

// One more labelled line; where it does not fit nothing is done. Returns how many there are: a number that goes on by value, with
// program's Lines, where no loan can be.
#[tactic(auto, unfolding(crate::specs::MarkWords::mark_list, crate::specs::MarkWords::mark_count))]
pub fn put_mark(
    work: &mut [u32],
    n: usize,
    label: Label,
    addr: Addr,
    first: Option<DatumIndex>,
) -> usize
    ensures { (work.new ≡ mark_list work.old n label.0 addr.0 (as_word (datum_word first))) × (result ≡ mark_count work.old n) }
{
    if n < work.len() / 3 {
        let i = 3 * n;
        work[i] = u32::from(label.0);
        work[i + 1] = addr.0;
        work[i + 2] = datum_word(first);
        n + 1
    } else {
        n
    }
}

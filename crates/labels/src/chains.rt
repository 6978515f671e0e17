// For closing up the labelled lines are put into chains by their labels. What compiler.rs keeps in its maps of labels and of DATA
// starts: lent words stand in for the maps, since there is no heap.
ghost use Rattle.std.specs.Prelude.{◌≡◌, ◌+◌, ◌*◌, ◌<◌, ◌≤◌, ◌%◌, List, ℕ, IfSome, eqb, length, get_or};
ghost use Rattle.recorder.specs.Word.{pick};
ghost use Rattle.recorder.specs.Optional.{plus_one};
ghost use Rattle.recorder.specs.Ideal.{missing};
ghost use Rattle.recorder.specs.Marks.{Mark, addr_of, data_of, datum_from};
ghost use Rattle.labels.specs.MarkWords.{marked_lines, target_found, start_found};
ghost use Rattle.labels.specs.MarksIn.{MarksIn};
ghost use Rattle.labels.specs.Chains.{Chained, line_of, label_of, last_in, chain_count};

use recorder::label::{Addr, DatumIndex, Label};
use recorder::number::LABEL_SIZE;
use recorder::word::word_at;

// Every line becomes the head of its chain, in order, and keeps the one that was, as a link above its label. The heads stand
// in the words that the lines leave free. n stays beside work, as in put_mark. Returns how many chains there are.
#[tactic(auto, using(crate::proofs::MarkLaws::index_start))]
pub fn put_in_chains(work: &mut [u32], n: usize) -> usize
    ensures count { result ≡ chain_count (marked_lines work.old n) (length work.old) }
    ensures chained { (ms : List Mark) → MarksIn work.old n ms → Chained work.new n result n ms }
{
    let lines = n.min(work.len() / 3);
    let from = 3 * lines;
    let chains = (lines / 15 * 30 + 31).min(work.len() - from);
    if chains != 0 {
        for k in 0..lines {
            let at = 3 * k;
            let label = work[at] % LABEL_SIZE;
            let head = from + label as usize % chains;
            let link = work[head] % LABEL_SIZE;
            work[at] = label + LABEL_SIZE * link;
            work[head] = (k % LABEL_SIZE as usize) as u32 + 1;
        }
    }
    chains
}

// The labelled lines in chains: the words that they stand in, how many lines and how many chains there are. Which marks the words hold
// (Indexed) is no ghost field: index_lines takes any words, and the searches' clauses name the marks.
#[derive(Clone, Copy)]
pub struct Chains<'a> {
    work: &'a [u32],
    lines: usize,
    chains: usize,
    ghost room: { 3 * lines + chains ≤ length work.now },
}

impl<'a> Chains<'a> {
    ghost use Rattle.labels.specs.Indexed.{Indexed};

    // The chains that words hold, as put_in_chains leaves them: where there is no room for so many lines or chains, none are looked at.
    pub fn of(work: &'a [u32], n: usize, chains: usize) -> Chains<'a>
        ensures chains { 3 * marked_lines work.now n + chains ≤ length work.now → result.chains ≡ chains }
        ensures indexed { (ms : List Mark) → Chained work.now n chains n ms → Indexed result ms }
    {
        let lines = n.min(work.len() / 3);
        let chains = if chains <= work.len() - 3 * lines {
            chains
        } else {
            0
        };
        Chains {
            work,
            lines,
            chains,
        }
    }

    // The n lines that stand in the words are put into chains.
    pub fn index_lines(work: &'a mut [u32], n: usize) -> Chains<'a>
        ensures { (result.chains ≡ chain_count (marked_lines work.old n) (length work.old)) × ((ms : List Mark) → MarksIn work.old n ms → Indexed result ms) }
    {
        let chains = put_in_chains(work, n);
        Chains::of(work, n, chains)
    }

    // The i-th word of a line.
    fn word(&self, line: u32, i: usize) -> u32
        requires { i < 3 }
        ensures { result ≡ get_or self.now.work.now (3 * line + i) 0 }
    {
        word_at(self.work, 3 * line as usize + i)
    }

    // Whether a line has that label.
    fn has_label(&self, line: u32, label: Label) -> bool
        ensures { (ms : List Mark) → Indexed self.now ms → line < self.now.lines → result ≡ eqb (label_of ms line) label.0 }
    {
        self.word(line, 0) % LABEL_SIZE == u32::from(label.0)
    }

    // The last line of a label's chain.
    fn head_of(&self, label: Label) -> Option<u32>
        ensures { (ms : List Mark) → Indexed self.now ms → plus_one result ≡ last_in self.now.chains ms (label.0 % self.now.chains) self.now.lines }
    {
        if self.chains == 0 {
            return None;
        }
        self.work[3 * self.lines + usize::from(label.0) % self.chains].checked_sub(1)
    }

    // The line before one in its chain; a link that leads to no earlier line ends it.
    #[tactic(auto, using(crate::proofs::MarkLaws::less_one, crate::proofs::MarkLaws::link_is))]
    fn before(&self, line: u32) -> Option<u32>
        ensures lower { IfSome result (λ k. k < line) }
        ensures link { (ms : List Mark) → Indexed self.now ms → line < self.now.lines → plus_one result ≡ last_in self.now.chains ms (label_of ms line % self.now.chains) line }
    {
        let link = self.word(line, 0) / LABEL_SIZE;
        if line < link {
            return None;
        }
        link.checked_sub(1)
    }

    // A line's first datum, where the line has that label and a datum.
    fn datum_of(&self, line: u32, label: Label) -> Option<DatumIndex>
        ensures { (ms : List Mark) → Indexed self.now ms → line < self.now.lines → result ≡ start_found (pick (eqb (label_of ms line) label.0) (datum_from (line_of ms line).first) missing) }
    {
        if !self.has_label(line, label) {
            return None;
        }
        self.word(line, 2).checked_sub(1).map(DatumIndex)
    }

    // "A target is the address of the last line with that label": a chain goes from its last line back.
    pub fn find_label(&self, label: Label) -> Option<Addr>
        ensures { (ms : List Mark) → Indexed self.now ms → result ≡ target_found (addr_of ms label.0) }
    {
        let mut next = self.head_of(label);
        // The links end it, and nothing is counted; a `for` would need a count beside the chain, and of successors no end is known.
        while let Some(line) = next {
            if self.has_label(line, label) {
                return Some(Addr(self.word(line, 1)));
            }
            next = self.before(line);
        }
        None
    }

    // "A DATA index is the first DATA of that label": what the whole chain has earliest.
    pub fn find_datum(&self, label: Label) -> Option<DatumIndex>
        ensures { (ms : List Mark) → Indexed self.now ms → result ≡ start_found (data_of ms label.0) }
    {
        let mut datum = None;
        let mut next = self.head_of(label);
        // As in find_label, the links end it, and nothing is counted.
        while let Some(line) = next {
            datum = self.datum_of(line, label).or(datum);
            next = self.before(line);
        }
        datum
    }
}

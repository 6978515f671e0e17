// A reader of the sheet: its words and a place in them. Few thin functions; each leaves the work to one over plain slices.
ghost use Rattle.std.specs.Prelude.{◌≡◌};
ghost use Rattle.recorder.specs.Word.{payload_at, next};

#[derive(Clone, Copy)]
pub struct Reader<'a> {
    pub words: &'a [u32],
    pub at: usize,
}

impl<'a> Reader<'a> {
    // A reader at a place.
    pub fn new(words: &'a [u32], at: usize) -> Self
        ensures { (result.words ≡ words.entry) × (result.at ≡ at) }
    {
        Self { words, at }
    }

    // The payload of the word at its place, 0 behind the end.
    pub fn payload(self) -> u32
        ensures { result ≡ payload_at self.entry.words.now self.entry.at }
    {
        recorder::word::payload_at(self.words, self.at)
    }

    // Moved on by one word; the end stays.
    pub fn moved(self) -> Self
        ensures { (result.words ≡ self.entry.words) × (result.at ≡ next self.entry.words.now self.entry.at) }
    {
        Self {
            words: self.words,
            at: recorder::word::behind(self.words, self.at),
        }
    }
}

// The length that a line's word tells.
pub fn line_length(sheet: &[u32], at: usize) -> u32
    ensures { result ≡ payload_at sheet.now at }
{
    Reader::new(sheet, at).payload()
}

// Where a line's label stands: behind its length.
pub fn label_place(sheet: &[u32], at: usize) -> usize
    ensures { result ≡ next sheet.now at }
{
    Reader::new(sheet, at).moved().at
}

// A reader of the journal: it refers to the journal and holds a word number. The functions over it are thin:
// parsing::read, which takes slice and number, does the work.
#![tactic(auto)]

ghost use Rattle.std.specs.Prelude.{◌≡◌};
ghost use Rattle.journal.specs.Words.{read_at};

use journal::types::Read;

// stays: (d) no Iterator: at a refusal a reader stays where it is, so its calls would never end.
#[derive(Clone, Copy)]
pub struct Reader<'a> {
    pub journal: &'a [u32],
    pub at: usize,
}

impl<'a> Reader<'a> {
    // A reader at a word of the journal.
    pub fn new(journal: &'a [u32], at: usize) -> Reader<'a>
        ensures { (result.journal ≡ journal.entry) × (result.at ≡ at) }
    {
        Reader { journal, at }
    }

    // The next call, and the number of the word behind it, where a reader of the call after it stands.
    pub fn next(self) -> Read
        ensures { result ≡ read_at self.entry.journal.now self.entry.at }
    {
        parsing::read(self.journal, self.at)
    }
}

// The next call of a reader at a word of the journal, for callers that hold no reader.
pub fn read(journal: &[u32], at: usize) -> Read
    ensures { result ≡ read_at journal.now at }
{
    Reader::new(journal, at).next()
}

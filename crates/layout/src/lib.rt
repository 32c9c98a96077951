// The memory of a machine state, word by word. The definitions stand in specs/ and docs/LAYOUT.md lists the words; the
// code that reads and writes them is the kernel's.
#![tactic(auto)]

pub mod codes;
pub mod wide;

// How many words are lent for the tables.
pub const TABLE_WORDS: usize = 4096;

// How many are lent for the scratch beside them; grants::GRANT_WORDS, for the grants.
pub const SCRATCH_WORDS: usize = 256;

pub type Tables = [u32; TABLE_WORDS];

pub type Scratch = [u32; SCRATCH_WORDS];

// How many words have nothing in them.
pub const UNUSED_WORDS: usize = 534;

// The words of a thread that are no links. Owes is what the thread has to do with aborts, Note the badge of a note.
#[derive(Clone, Copy)]
pub enum Field {
    Place,
    Priority,
    Ticks,
    Outcome,
    Badge,
    Message,
    Owes,
    Note,
}

// The words of an endpoint that are no links. Aborting is whether an abort stands there; then come its badge and
// the first and the last of those that it has still to look at.
#[derive(Clone, Copy)]
pub enum Part {
    Status,
    Aborting,
    Aborted,
    Cursor,
    End,
}

// A word that is no link.
#[derive(Clone, Copy)]
pub enum Slot {
    Thread(Field, usize),
    Endpoint(Part, usize),
    Line(usize),
    // A word of the summary, and its top word.
    Summary(usize),
    Top,
    // The thread that runs.
    Running,
    Unused(usize),
}

// A link: of a thread, to the next and to the one before it in its queue; of a queue, to its first and to its last.
#[derive(Clone, Copy)]
pub enum Link {
    Next(usize),
    Prev(usize),
    Head(usize),
    Tail(usize),
}

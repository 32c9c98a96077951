// The rows of a journal's listing: the next call of a journal is read and taken on the lent memory.
#![tactic(auto)]

ghost use Rattle.std.specs.Prelude.{◌≡◌};
ghost use Rattle.journal.specs.Words.{read_at};
ghost use Rattle.rows.specs.Taking.{Turned, turned, code_of};
ghost use Rattle.lent_tables.specs.Entries.{runner_in};
ghost use Rattle.rows.specs.Memory.{within, SameSlices};

use calls::{Answer, Call};
use journal::types::Read;

// The memory that a caller lends.
#[derive(Drop)]
pub struct Memory<'a> {
    pub tables: &'a mut [u32],
    pub grants: &'a mut [u32],
    pub scratch: &'a mut [u32],
}

// A call was taken: its answer, who runs after it, and the word behind it; or no call was read, with the reader's
// number and who runs; or the journal is over.
// stays: (a) `turned` and the lister's `told_of` are over it, its code a number as `read_at` has it.
#[derive(Clone, Copy)]
pub enum Turn {
    Took {
        call: Call,
        answer: Answer,
        who: Option<u32>,
        next: usize,
    },
    Stopped {
        code: u32,
        who: Option<u32>,
    },
    Over,
}

impl Memory<'_> {
    // Who runs.
    pub fn running(&self) -> Option<u32>
        ensures { result ≡ runner_in self.now.tables.now }
    {
        lent_tables::who::running(self.tables)
    }

    // Reads the call at a word of the journal and takes it.
    pub fn next(&mut self, words: &[u32], at: usize) -> Turn
        ensures taken { ◌≡◌ {A = Turned} (record { turn = result; left = within self.new })
            (turned (read_at words.now at) (within self.old)) }
        ensures same { SameSlices self.old self.new }
    {
        match reader::read(words, at) {
            Read::Found { call, next } => {
                let answer = kernel::call(self.tables, self.grants, self.scratch, call);
                Turn::Took {
                    call,
                    answer,
                    who: self.running(),
                    next,
                }
            }
            Read::Refused { code, .. } => Turn::Stopped {
                code,
                who: self.running(),
            },
            Read::Ended => Turn::Over,
        }
    }
}

// The reader's number where a turn stopped, else 0.
pub fn code(turn: Turn) -> u32
    ensures { result ≡ code_of turn }
{
    match turn {
        Turn::Stopped { code, .. } => code,
        Turn::Over | Turn::Took { .. } => calls::codes::DONE,
    }
}

// What the words at a place of a journal read as.
#![tactic(auto)]

ghost use Rattle.std.specs.Prelude.{◌≡◌};
ghost use Rattle.calls.specs.Answers.{maybe_of, code_of};
ghost use Rattle.journal.specs.declared.types.Read.TheVariants.{Refused};
ghost use Rattle.journal.specs.Words.{words_taken, judged, read_at};

use calls::{Call, Refusal};
use journal::types::Read;

// A refusal leaves the reader where it stands.
fn refused(why: Refusal, at: usize) -> Read
    ensures { result ≡ Refused (code_of why) at }
{
    Read::Refused {
        code: why.into(),
        at,
    }
}

// What is answered at a place where these words stand: 18 before 19.
fn answer(named: Option<Call>, at: usize, next: usize) -> Read
    ensures { result ≡ judged at next (maybe_of named) }
{
    match named {
        Some(call) if calls::in_range(call) => Read::Found { call, next },
        Some(_) => refused(Refusal::Range, at),
        None => refused(Refusal::NoCall, at),
    }
}

// The words that a call takes, by the top byte of its first word; 0 where no call begins so.
#[tactic(auto, unfolding(journal::specs::Words::words_taken))]
pub fn words_taken(top: u32) -> usize
    ensures { result ≡ words_taken top }
{
    match top {
        0x11..=0x16 | 0x18..=0x1B => 1,
        // an abort and a grant: a badge word after it
        0x1C..=0x1D => 2,
        // a send: a badge and a message word after it
        0x17 => 3,
        _ => 0,
    }
}

// What the journal's words from number `at` on read as.
#[tactic(auto, using(journal::proofs::Answers::reads))]
pub fn read(journal: &[u32], at: usize) -> Read
    ensures { result ≡ read_at journal.now at }
{
    let Some(&word) = journal.get(at) else {
        return Read::Ended;
    };
    let named = decoding::call_at(word, &journal[at + 1..]);
    answer(named, at, at + words_taken(word >> 24))
}

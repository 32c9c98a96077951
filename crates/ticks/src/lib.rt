// The ticks of a journal that each thread number is charged for, counted on tables of their own.
#![tactic(auto)]

ghost use Rattle.std.specs.Prelude.{◌≤◌, ◌≡◌, ◌⊎◌, length, replicate};
ghost use Rattle.std.proofs.Math.Option.{none};
ghost use Rattle.calls.specs.Answers.{code_in};
ghost use Rattle.journal.specs.Course.{course_of};
ghost use Rattle.rows.specs.Memory.{within};
ghost use Rattle.rows.specs.Run.{Ran};
ghost use Rattle.billing.specs.Ticks.{ticked, count_words, most_words, Counted, count_for};
ghost use Rattle.ticks.specs.Counting.{call_alone, Counting, CountedAll, After, OverBy};

use calls::{Answer, Call, Refusal, codes};
use rows::{Memory, Turn};

// How many counts are lent: one for each thread number, and the idle ticks last.
pub const COUNTS: usize = 257;

// The idle ticks' place among them, which is the number of nobody.
pub const IDLE: usize = 256;

// The longest journal, in words, and the highest rate.
pub const MOST_WORDS: usize = 16_000;

pub const MOST_RATE: u32 = 10_000;

// The number of the call that is a tick.
const TICK: u32 = 6;

// How far a journal was run: the next word, and the place of who runs among the counts.
// stays: (d) who runs is a number here: its count is found without a branch.
#[derive(Clone, Copy)]
struct Place {
    at: usize,
    who: usize,
}

// 1 for an accepted tick, else 0.
#[tactic(auto, unfolding(billing::specs::Ticks::ticked))]
fn tick(call: Call, answer: Answer) -> u32
    ensures { result ≡ ticked (call_alone call answer) }
{
    u32::from((calls::number(call) == TICK) & (answer.code <= codes::BROKEN_OFF))
}

// Where no call was taken: the journal is over, or why the reader, whose `Read` has a number, refuses it.
fn over(code: u32) -> Result<Option<Place>, Refusal>
    requires { ((code ≡ 0) ⊎ (code ≡ 18)) ⊎ (code ≡ 19) }
    ensures { OverBy code result }
{
    if code == codes::DONE {
        return Ok(None);
    }
    if code == Refusal::NoCall.into() {
        return Err(Refusal::NoCall);
    }
    Err(Refusal::Range)
}

// Takes the next call and adds it, if it is a tick, to the count of who ran before it: the place behind it, none where
// the journal is over. There is no branch on the tick: 0 or 1 is added.
fn turn(
    journal: &[u32],
    p: Place,
    memory: &mut Memory<'_>,
    counts: &mut [u32],
) -> Result<Option<Place>, Refusal>
    requires { (length journal.now ≤ most_words) × Counting journal.now p (within memory.old) counts.old }
    ensures { After journal.now p result (within memory.new) counts.new }
{
    let taken = memory.next(journal, p.at);
    let Turn::Took {
        call,
        answer,
        who,
        next,
    } = taken
    else {
        return over(rows::code(taken));
    };
    counts[p.who] += tick(call, answer);
    Ok(Some(Place {
        at: next,
        who: calls::seat(who) as usize,
    }))
}

// Takes all calls, on fresh memory.
fn turns(journal: &[u32], memory: &mut Memory<'_>, counts: &mut [u32]) -> Result<(), Refusal>
    requires { (length journal.now ≤ most_words) × (counts.old ≡ replicate count_words 0)
        × Ran journal.now 0 0 none (within memory.old) (course_of journal.now) }
    ensures { CountedAll journal.now (code_in result) counts.new }
{
    let mut p = Place { at: 0, who: IDLE };
    while let Some(next) = turn(journal, p, memory, counts)? {
        p = next;
    }
    Ok(())
}

// The same on memory of its own: 82 KiB of stack with the counts.
fn run(journal: &[u32], counts: &mut [u32]) -> Result<(), Refusal>
    requires { (length journal.now ≤ most_words) × (counts.old ≡ replicate count_words 0) }
    ensures { CountedAll journal.now (code_in result) counts.new }
{
    let mut tables = [0u32; lent_tables::TABLE_WORDS];
    let mut grants = [0u32; grants::GRANT_WORDS];
    let mut scratch = [0u32; lent_tables::SCRATCH_WORDS];
    let _ = lent_tables::fresh(&mut tables, &mut grants);
    let mut memory = Memory {
        tables: &mut tables,
        grants: &mut grants,
        scratch: &mut scratch,
    };
    turns(journal, &mut memory, counts)
}

// The ticks of a journal for each thread number and, last, the idle ones. They are counted apart and handed over at the
// end, so that a journal that does not read to its end leaves the lent counts as they were.
#[tactic(auto, unfolding(billing::specs::Ticks::count_for))]
pub fn count(journal: &[u32], rate: u32, counts: &mut [u32]) -> Result<(), Refusal>
    ensures { ◌≡◌ {A = Counted} (record { code = code_in result; counts = counts.new })
        (count_for journal.now rate counts.old) }
{
    if journal.len() > MOST_WORDS || rate > MOST_RATE || counts.len() != COUNTS {
        return Err(Refusal::Limits);
    }
    let mut own = [0u32; COUNTS];
    run(journal, &mut own)?;
    counts.copy_from_slice(&own);
    Ok(())
}

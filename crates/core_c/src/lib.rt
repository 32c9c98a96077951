// The core for C: the five entry points, who runs, and how a thread was woken, under the names of include/nazsombet.h.
// A slice passes as a pointer and a length, an array of fixed length as a pointer.
// A call passes as six plain numbers and not as journal words: so every number of 32 bits reaches the core's own range
// test, and what the reader gives is what a call takes. Numbers that name no call are refused by 18, after 16 and 17.
#![tactic(auto)]

ghost use Rattle.std.specs.Prelude.{◌≡◌};
ghost use Rattle.std.proofs.Math.Option.{none};
ghost use Rattle.lent_tables.specs.Entries.{lent, Freshened, Checked, Called, freshened, checked, runner_in};
ghost use Rattle.lent_tables.specs.Entries.{woken_in};
ghost use Rattle.calls.specs.Answers.{maybe_of, answer_of};
ghost use Rattle.journal.specs.Words.{Written};
ghost use Rattle.numbers.specs.Numbers.{call_in};
ghost use Rattle.numbers.specs.declared.types.Reading.{Reading};
ghost use Rattle.numbers.specs.Journal.{reading, written_for};
ghost use Rattle.core_c.specs.Entries.{Answered, called_for, answered, runner_number, three};

use calls::{Answer, Call, Outcome, Refusal, codes};

// Tables of 4,096 words and grants of 16,384 become fresh.
#[unsafe(no_mangle)]
pub extern "C" fn nazsombet_fresh(tables: &mut [u32], grants: &mut [u32]) -> u32
    ensures { ◌≡◌ {A = Freshened}
        (record { code = result; tables = tables.new; grants = grants.new })
        (freshened tables.old grants.old) }
{
    calls::code(lent_tables::fresh(tables, grants))
}

// Whether the tables show a sound state and the grants are sound; neither is changed.
#[unsafe(no_mangle)]
pub extern "C" fn nazsombet_check(tables: &[u32], grants: &[u32], scratch: &mut [u32]) -> u32
    ensures { ◌≡◌ {A = Checked} (record { code = result; scratch = scratch.new })
        (checked (lent tables.now grants.now scratch.old)) }
{
    calls::code(lent_tables::check(tables, grants, scratch))
}

// The numbers name no call: 18, if tables and grants are sound.
// stays: (a) C lends the three memories apart, and tables are read beside grants and scratch that change.
fn refuse(tables: &[u32], grants: &[u32], scratch: &mut [u32]) -> Outcome
    ensures { ◌≡◌ {A = Called}
        (record { answer = answer_of result; left = lent tables.now grants.now scratch.new })
        (called_for none (lent tables.now grants.now scratch.old)) }
{
    lent_tables::check(tables, grants, scratch)?;
    Err(Refusal::NoCall)
}

// Takes the call that the numbers name, if they name one.
fn take(tables: &mut [u32], grants: &mut [u32], scratch: &mut [u32], named: Option<Call>) -> Answer
    ensures { ◌≡◌ {A = Called}
        (record { answer = result; left = lent tables.new grants.new scratch.new })
        (called_for (maybe_of named)
        (lent tables.old grants.old scratch.old)) }
{
    let Some(call) = named else {
        return refuse(tables, grants, scratch).into();
    };
    kernel::call(tables, grants, scratch, call)
}

// Takes a call; its code is answered too.
#[unsafe(no_mangle)]
#[tactic(auto, unfolding(crate::specs::Entries::answered))]
pub extern "C" fn nazsombet_call(
    tables: &mut [u32],
    grants: &mut [u32],
    scratch: &mut [u32],
    call: &[u32; 6],
    answer: &mut [u32; 4],
) -> u32
    ensures { ◌≡◌ {A = Answered}
        (record {
          code = result;
          answer = answer.new;
          left = lent tables.new grants.new scratch.new;
        })
        (answered (lent tables.old grants.old scratch.old) call.now) }
{
    let named = numbers::call_in(*call);
    let a = take(tables, grants, scratch, named);
    *answer = a.into();
    a.code
}

// Reads the call at a word of the journal, and goes to the first word not yet read.
#[unsafe(no_mangle)]
pub extern "C" fn nazsombet_read(journal: &[u32], at: &mut usize, call: &mut [u32; 6]) -> u32
    ensures { ◌≡◌ {A = Reading} (record { code = result; at = at.new; call = call.new })
        (reading journal.now at.old) }
{
    let reading = numbers::read(journal, *at);
    *at = reading.at;
    let numbers = reading.call;
    *call = numbers;
    reading.code
}

// Writes a call as its journal words.
#[unsafe(no_mangle)]
pub extern "C" fn nazsombet_write(call: &[u32; 6], words: &mut [u32; 3], count: &mut usize) -> u32
    ensures { ◌≡◌ {A = Written} (record { code = result; count = count.new; words = words.new })
        (written_for (call_in call.now)) }
{
    match numbers::write(numbers::call_in(*call)) {
        Ok(written) => {
            *count = written.count;
            let three = written.words;
            *words = three;
            codes::DONE
        }
        Err(why) => {
            *count = 0;
            *words = [0; 3];
            why.into()
        }
    }
}

// The thread that runs, 0 to 255, or 256, whatever the words are.
#[unsafe(no_mangle)]
pub extern "C" fn nazsombet_running(tables: &[u32]) -> u32
    ensures { result ≡ runner_number (runner_in tables.now) }
{
    calls::seat(lent_tables::who::running(tables))
}

// How a thread's last waiting ended: outcome, badge and message, whatever the words are.
#[unsafe(no_mangle)]
pub extern "C" fn nazsombet_woken(tables: &[u32], thread: u32, woken: &mut [u32; 3])
    ensures { woken.new ≡ three (woken_in tables.now thread) }
{
    let how = lent_tables::how::woken(tables, thread);
    *woken = [how.outcome, how.badge, how.message];
}

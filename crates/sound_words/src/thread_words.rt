// The blocks of the threads: an absent thread's words are 0, a present thread's are in range and agree with each other.
// Each function answers a test of soundness/specs/Checks; the tests of one thread are joined without branches.
ghost use Rattle.std.specs.Prelude.{◌≡◌, ◌≤◌, length};
ghost use Rattle.layout.specs.declared.Field.{Field};
ghost use Rattle.layout.specs.Addresses.{table_words};
ghost use Rattle.layout.specs.Tests.{all};
ghost use Rattle.soundness.specs.Checks.{thread_at, absent_test, numbers_test, stored_test, waits_test, owes_test};
ghost use Rattle.soundness.specs.Checks.{present_test, block_test};

use calls::sizes::THREADS;
use layout::{Field, Part, Slot, Tables, wide};

// An absent thread's words are 0.
#[tactic(auto, unfolding(soundness::specs::Checks::absent_test))]
fn absent(tables: &Tables, t: usize) -> bool
    requires { t ≤ 255 }
    ensures { result ≡ absent_test tables.now t }
{
    (words::thread(tables, Field::Priority, t) == 0)
        & (words::thread(tables, Field::Ticks, t) == 0)
        & (words::thread(tables, Field::Outcome, t) == 0)
        & (words::thread(tables, Field::Badge, t) == 0)
        & (words::thread(tables, Field::Message, t) == 0)
        & (words::thread(tables, Field::Owes, t) == 0)
        & (words::thread(tables, Field::Note, t) == 0)
}

// A present thread's numbers are in range.
#[tactic(auto, unfolding(soundness::specs::Checks::numbers_test))]
fn numbers(tables: &Tables, t: usize) -> bool
    requires { t ≤ 255 }
    ensures { result ≡ numbers_test tables.now t }
{
    let ticks = words::thread(tables, Field::Ticks, t);
    (words::thread(tables, Field::Place, t) <= wide::LAST_PLACE)
        & (words::thread(tables, Field::Priority, t) <= wide::LAST_PRIORITY)
        & ((1 <= ticks) & (ticks <= wide::TICKS))
        & (words::thread(tables, Field::Outcome, t) <= wide::LAST_OUTCOME)
        & (words::thread(tables, Field::Badge, t) < wide::BADGES)
        & (words::thread(tables, Field::Message, t) < wide::BADGES)
}

// Outcome, badge and message stand only where a thread stores them.
#[tactic(auto, unfolding(soundness::specs::Checks::stored_test))]
fn stored(tables: &Tables, t: usize) -> bool
    requires { t ≤ 255 }
    ensures { result ≡ stored_test tables.now t }
{
    let place = words::thread(tables, Field::Place, t);
    let outcome = words::thread(tables, Field::Outcome, t);
    let nothing = (words::thread(tables, Field::Badge, t) == 0)
        & (words::thread(tables, Field::Message, t) == 0);
    ((place == wide::ABLE) | (outcome == wide::NO_OUTCOME))
        & ((outcome == wide::MESSAGE_RECEIVED)
            | ((wide::SENDING <= place) & (place < wide::RECEIVING))
            | nothing)
}

// A thread on a line is the line's waiter.
#[tactic(auto, unfolding(soundness::specs::Checks::waits_test))]
fn waits(tables: &Tables, t: usize) -> bool
    requires { (t ≤ 255) × (thread_at tables.now Field.Place t ≤ 161) }
    ensures { result ≡ waits_test tables.now t }
{
    let place = words::thread(tables, Field::Place, t);
    if place < wide::WAITING {
        return true;
    }
    let line = place - wide::WAITING;
    words::wide(tables, Slot::Line(line)) == t + wide::AWAITED
}

// What a thread owes: nothing, work on an abort that stands, or a note.
fn owing(tables: &Tables, t: usize) -> bool
    requires { t ≤ 255 }
    ensures { result ≡ owes_test (thread_at tables.now Field.Owes t) tables.now t }
{
    let owes = words::thread(tables, Field::Owes, t);
    let note = words::thread(tables, Field::Note, t);
    if owes == wide::NOTHING {
        return note == 0;
    }
    if owes <= wide::LAST_MEMBER {
        return (note == 0)
            & (words::endpoint(tables, Part::Aborting, owes - wide::MEMBER) == wide::ABORTING);
    }
    (owes <= wide::LAST_NOTE) & (note < wide::BADGES)
}

// A present thread. Where its numbers are in range, its line exists.
#[tactic(auto, using(crate::proofs::Numbers::place_small), unfolding(soundness::specs::Checks::present_test))]
fn present(tables: &Tables, t: usize) -> bool
    requires { t ≤ 255 }
    ensures { result ≡ present_test tables.now t }
{
    if !numbers(tables, t) {
        return false;
    }
    stored(tables, t) & waits(tables, t) & owing(tables, t)
}

#[tactic(auto, unfolding(soundness::specs::Checks::block_test))]
fn block(tables: &Tables, t: usize) -> bool
    requires { t ≤ 255 }
    ensures { result ≡ block_test tables.now t }
{
    if words::thread(tables, Field::Place, t) == wide::ABSENT {
        return absent(tables, t);
    }
    present(tables, t)
}

pub fn threads(tables: &Tables) -> bool
    ensures { result ≡ all 256 (block_test tables.now) }
{
    (0..THREADS).all(|t| block(tables, t))
}

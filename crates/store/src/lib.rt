// The steps on single entries of the lent tables: reading a word by its name, changing an entry, and the summary.
// Each is a few stores, and does to whatever state the words show what its name says of the machine's state.
#![tactic(auto)]

ghost use Rattle.std.specs.Prelude.{◌≡◌, true, false, ◌<◌, length};
ghost use Rattle.layout.specs.Addresses.{table_words};
ghost use Rattle.store.specs.Steps.{Shown, Does, Tells};
ghost use Rattle.store.specs.Store.{IsSlot, IsThread, IsEndpoint, IsLine, Any};
ghost use Rattle.store.specs.Store.{prioritising, ticking, creating, clearing};
ghost use Rattle.store.specs.Store.{SetsPlace, SetsDebt, SetsRunning, SetsLine, SetsStatus, SetsAbort};
ghost use Rattle.store.specs.Store.{Remakes, SetsPending};
ghost use Rattle.store.specs.Readings.{slot_in, thread_in, endpoint_in, line_in, running_in};
ghost use Rattle.store.specs.Levels.{LoadsSummary, SetsLevel, WritesLevel};

use layout::{Field, Part, Slot, Tables, codes};
use std::array;
use summary::Summary;

// A word that is no link.
fn slot(tables: &Tables, a: Slot) -> u32
    requires { Shown tables.now (IsSlot a) }
    ensures { Tells tables.now (IsSlot a) result (slot_in a) }
{
    words::get(tables, a)
}

// A word of thread t.
// stays: a thread has a Field, an endpoint a Part, each with its own promise; what they share is slot.
pub fn thread(tables: &Tables, f: Field, t: usize) -> u32
    requires { Shown tables.now (IsThread t) }
    ensures { Tells tables.now (IsThread t) result (thread_in f t) }
{
    slot(tables, Slot::Thread(f, t))
}

// A word of endpoint e.
pub fn endpoint(tables: &Tables, p: Part, e: usize) -> u32
    requires { Shown tables.now (IsEndpoint e) }
    ensures { Tells tables.now (IsEndpoint e) result (endpoint_in p e) }
{
    slot(tables, Slot::Endpoint(p, e))
}

// What line l holds, as a number.
pub fn line(tables: &Tables, l: usize) -> u32
    requires { Shown tables.now (IsLine l) }
    ensures { Tells tables.now (IsLine l) result (line_in l) }
{
    slot(tables, Slot::Line(l))
}

// The link to the running thread.
pub fn running(tables: &Tables) -> u32
    requires { Shown tables.now Any }
    ensures { Tells tables.now Any result running_in }
{
    slot(tables, Slot::Running)
}

// Thread t is at a place, with the outcome, badge and message that it has there.
// stays: (d) the three go together to the words of a place, and the machine's definitions name them apart.
// stays: places, debts, statuses and lines are words of the lent, fixed memory, as place_code of specs and its like.
pub fn set_place(tables: &mut Tables, t: usize, place: u32, outcome: u32, badge: u32, message: u32)
    requires { Shown tables.old (IsThread t) }
    ensures { SetsPlace tables.old t place outcome badge message tables.new }
{
    words::put(tables, Slot::Thread(Field::Place, t), place);
    words::put(tables, Slot::Thread(Field::Outcome, t), outcome);
    words::put(tables, Slot::Thread(Field::Badge, t), badge);
    words::put(tables, Slot::Thread(Field::Message, t), message);
}

// Thread t has priority p.
pub fn set_priority(tables: &mut Tables, t: usize, p: u32)
    requires { Shown tables.old (IsThread t) }
    ensures { Does tables.old tables.new (IsThread t) (prioritising t p) }
{
    words::put(tables, Slot::Thread(Field::Priority, t), p);
}

// Thread t has n ticks left.
pub fn set_ticks(tables: &mut Tables, t: usize, n: u32)
    requires { Shown tables.old (IsThread t) }
    ensures { Does tables.old tables.new (IsThread t) (ticking t n) }
{
    words::put(tables, Slot::Thread(Field::Ticks, t), n);
}

// What thread t has to do with aborts, and the badge of its note.
pub fn set_owes(tables: &mut Tables, t: usize, code: u32, badge: u32)
    requires { Shown tables.old (IsThread t) }
    ensures { SetsDebt tables.old t code badge tables.new }
{
    words::put(tables, Slot::Thread(Field::Owes, t), code);
    words::put(tables, Slot::Thread(Field::Note, t), badge);
}

// Thread t has this place, priority and ticks, and nothing else.
fn remake(tables: &mut Tables, t: usize, place: u32, p: u32, ticks: u32)
    requires { Shown tables.old (IsThread t) }
    ensures { Remakes tables.old t place p ticks tables.new }
{
    set_priority(tables, t, p);
    set_ticks(tables, t, ticks);
    set_owes(tables, t, codes::NOTHING, 0);
    set_place(tables, t, place, calls::codes::NO_OUTCOME, 0, 0);
}

// Thread t is new: able, of priority p, with all its ticks.
pub fn new_thread(tables: &mut Tables, t: usize, p: u32)
    requires { Shown tables.old (IsThread t) }
    ensures { Does tables.old tables.new (IsThread t) (creating t p) }
{
    remake(tables, t, codes::ABLE, p, calls::codes::TICKS);
}

// Thread t is absent.
pub fn clear_thread(tables: &mut Tables, t: usize)
    requires { Shown tables.old (IsThread t) }
    ensures { Does tables.old tables.new (IsThread t) (clearing t) }
{
    remake(tables, t, codes::ABSENT, 0, 0);
}

// The thread of a link runs, none for 0.
pub fn set_running(tables: &mut Tables, link: u32)
    requires { Shown tables.old Any }
    ensures { SetsRunning tables.old link tables.new }
{
    words::put(tables, Slot::Running, link);
}

// Line l is quiet, pending or awaited.
pub fn set_line(tables: &mut Tables, l: usize, code: u32)
    requires { Shown tables.old (IsLine l) }
    ensures { SetsLine tables.old l code tables.new }
{
    words::put(tables, Slot::Line(l), code);
}

// Endpoint e is missing, live or closing.
pub fn set_status(tables: &mut Tables, e: usize, code: u32)
    requires { Shown tables.old (IsEndpoint e) }
    ensures { SetsStatus tables.old e code tables.new }
{
    words::put(tables, Slot::Endpoint(Part::Status, e), code);
}

// The abort at endpoint e: whether one stands, its badge, and the first and the last waiter to look at.
pub fn set_abort(tables: &mut Tables, e: usize, here: u32, badge: u32, cursor: u32, end: u32)
    requires { Shown tables.old (IsEndpoint e) }
    ensures { SetsAbort tables.old e here badge cursor end tables.new }
{
    words::put(tables, Slot::Endpoint(Part::Aborting, e), here);
    words::put(tables, Slot::Endpoint(Part::Aborted, e), badge);
    words::put(tables, Slot::Endpoint(Part::Cursor, e), cursor);
    words::put(tables, Slot::Endpoint(Part::End, e), end);
}

// The abort at endpoint e looks at the waiters from a cursor to an end mark, both 0 for none.
pub fn set_marks(tables: &mut Tables, e: usize, cursor: u32, end: u32)
    requires { Shown tables.old (IsEndpoint e) }
    ensures { SetsPending tables.old e cursor end tables.new }
{
    words::put(tables, Slot::Endpoint(Part::Cursor, e), cursor);
    words::put(tables, Slot::Endpoint(Part::End, e), end);
}

// The summary that stands in the tables.
pub fn load_summary(tables: &Tables) -> Summary
    ensures { LoadsSummary tables.now result }
{
    Summary {
        words: array::from_fn(|w| words::get(tables, Slot::Summary(w))),
        top: words::get(tables, Slot::Top),
    }
}

// The word of level p and the top word become those of the summary.
fn store_level(tables: &mut Tables, sm: Summary, p: u32)
    requires { p < 256 }
    ensures { WritesLevel tables.old sm p tables.new }
{
    let w = (p / 32) as usize;
    let word = sm.words[w];
    words::put(tables, Slot::Summary(w), word);
    words::put(tables, Slot::Top, sm.top);
}

// Level p is occupied in the summary.
// stays: the two differ in the summary's method alone, and a closure for it has a contract longer than either body.
pub fn set_occupied(tables: &mut Tables, p: u32)
    requires { p < 256 }
    ensures { SetsLevel tables.old p true tables.new }
{
    let sm = load_summary(tables);
    store_level(tables, sm.occupied(p), p);
}

// Level p is empty in the summary.
pub fn set_empty(tables: &mut Tables, p: u32)
    requires { p < 256 }
    ensures { SetsLevel tables.old p false tables.new }
{
    let sm = load_summary(tables);
    store_level(tables, sm.emptied(p), p);
}

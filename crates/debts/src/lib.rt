// Who works on an abort and who has a note of one: leaving and joining its set, beginning and ending an abort; and who
// is first at an endpoint. Each is a few steps of the store, and does what the machine's operation of its name does.
#![tactic(auto)]

ghost use Rattle.machine.specs.Endpoints.{drop_debt, note_all};
ghost use Rattle.machine.specs.Aborts.{join, begin};
ghost use Rattle.store.specs.Steps.{Shown, Does, Tells};
ghost use Rattle.store.specs.Store.{IsThread, IsEndpoint};
ghost use Rattle.debts.specs.Debts.{Says, PairInRange, InCall, under_in, noted_in, note_one, noting, EndsAbort};
ghost use Rattle.debts.specs.Debts.{Alike, BeginsAbort, FirstAt, last_sender};

use calls::sizes::THREADS;
use layout::codes::{ABORTING, LINK, NO_ABORT, NOBODY};
use layout::{Field, Part, Tables, codes};

// Thread t leaves the set that it is in, or its note goes.
#[tactic(auto, using(crate::proofs::Joining::leaves))]
pub fn drop_debt(tables: &mut Tables, t: usize)
    requires { Shown tables.old (IsThread t) }
    ensures { Does tables.old tables.new (IsThread t) (drop_debt t) }
{
    store::set_owes(tables, t, codes::NOTHING, 0);
}

// Whether an abort of this badge stands at endpoint e.
pub fn under_abort(tables: &Tables, e: usize, badge: u32) -> bool
    requires { Shown tables.now (IsEndpoint e) }
    ensures { Says tables.now (IsEndpoint e) result (under_in e badge) }
{
    store::endpoint(tables, Part::Aborting, e) != NO_ABORT
        && store::endpoint(tables, Part::Aborted, e) == badge
}

// Whether thread t has the note that the abort of this endpoint and badge ended.
pub fn has_note(tables: &Tables, t: usize, e: usize, badge: u32) -> bool
    requires { Shown tables.now (InCall t e) }
    ensures { Says tables.now (InCall t e) result (noted_in t e badge) }
{
    store::thread(tables, Field::Owes, t) == codes::NOTE + e as u32
        && store::thread(tables, Field::Note, t) == badge
}

// Thread t joins the set at endpoint e.
#[tactic(auto, using(crate::proofs::Joining::joins))]
pub fn join(tables: &mut Tables, t: usize, e: usize)
    requires { Shown tables.old (PairInRange t e) }
    ensures { Does tables.old tables.new (PairInRange t e) (join t e) }
{
    store::set_owes(tables, t, codes::MEMBER + e as u32, 0);
}

// Thread t gets a note of the badge if it is in the set at endpoint e.
fn note_member(tables: &mut Tables, t: usize, e: usize, badge: u32)
    requires { Shown tables.old (PairInRange t e) }
    ensures { Does tables.old tables.new (PairInRange t e) (note_one t e badge) }
{
    if store::thread(tables, Field::Owes, t) == codes::MEMBER + e as u32 {
        store::set_owes(tables, t, codes::NOTE + e as u32, badge);
    }
}

// Each member of the set at endpoint e gets a note of the badge. The set stands in the threads' words alone, so all are
// gone through.
fn note_members(tables: &mut Tables, e: usize, badge: u32)
    requires { Shown tables.old (IsEndpoint e) }
    ensures { Does tables.old tables.new (IsEndpoint e) (note_all e badge) }
{
    for t in 0..THREADS {
        note_member(tables, t, e, badge);
    }
}

// Each member of the set of the abort at endpoint e, if one stands, gets its note.
fn note_set(tables: &mut Tables, e: usize)
    requires { Shown tables.old (IsEndpoint e) }
    ensures { Does tables.old tables.new (IsEndpoint e) (noting e) }
{
    if store::endpoint(tables, Part::Aborting, e) != NO_ABORT {
        let badge = store::endpoint(tables, Part::Aborted, e);
        note_members(tables, e, badge);
    }
}

// The abort at endpoint e, if one stands, ends, and the endpoint has the status given.
// stays: the status is the word's number, which `EndsAbort` speaks of.
pub fn end_abort(tables: &mut Tables, e: usize, status: u32)
    requires { Shown tables.old (IsEndpoint e) }
    ensures { EndsAbort tables.old e status tables.new }
{
    note_set(tables, e);
    store::set_abort(tables, e, NO_ABORT, 0, NOBODY, NOBODY);
    store::set_status(tables, e, status);
}

// The link to the first waiter at endpoint e if it is at this place, sending or receiving; otherwise 0, and no waiter
// is, since all are alike.
// stays: place and link are the words' numbers, of which `FirstAt` and `begin`'s marks speak.
pub fn first_at(tables: &Tables, e: usize, place: u32) -> u32
    requires { Shown tables.now (Alike e) }
    ensures { FirstAt tables.now e place result }
{
    let link = links::first(tables, codes::ENDPOINT_QUEUES + e);
    if link == NOBODY {
        return NOBODY;
    }
    let at = store::thread(tables, Field::Place, (link - LINK) as usize);
    if at != place {
        return NOBODY;
    }
    link
}

// The link to the last sender at endpoint e; 0 for none.
fn last_sender(tables: &Tables, e: usize) -> u32
    requires { Shown tables.now (Alike e) }
    ensures { Tells tables.now (Alike e) result (last_sender e) }
{
    let first = first_at(tables, e, codes::SENDING + e as u32);
    if first == NOBODY {
        return NOBODY;
    }
    links::last(tables, codes::ENDPOINT_QUEUES + e)
}

// Thread t begins an abort of this badge at endpoint e, which has its senders to look at.
pub fn begin(tables: &mut Tables, t: usize, e: usize, badge: u32)
    requires { Shown tables.old (BeginsAbort t e) }
    ensures { Does tables.old tables.new (BeginsAbort t e) (begin t e badge) }
{
    let cursor = first_at(tables, e, codes::SENDING + e as u32);
    let end = last_sender(tables, e);
    store::set_abort(tables, e, ABORTING, badge, cursor, end);
    join(tables, t, e);
}

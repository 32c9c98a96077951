// The calls that make endpoints and hand messages over: 4, 7 and 8. Each is refused with nothing changed, or
// makes the steps of the machine's call in their order and ends in one choice of who runs.
#![tactic(auto)]

ghost use Rattle.std.specs.Prelude.{◌≤◌, ◌<◌, ◌^◌};
ghost use Rattle.calls.specs.Answers.{answer_of, maybe_of};
ghost use Rattle.machine.specs.Machine.{create_endpoint, send as sending, receive as receiving};
ghost use Rattle.store.specs.Steps.{Shown};
ghost use Rattle.layout.specs.Words.{link_of};
ghost use Rattle.debts.specs.Debts.{Alike, FirstAt};
ghost use Rattle.endings.specs.Results.{Asked, Calling, Performs};
ghost use Rattle.waiting.specs.Waiting.{Dropped};
ghost use Rattle.transfers.specs.Transfers.{TakesFrom, handing, taking, taking_from};

use calls::codes::{MESSAGE_RECEIVED, MESSAGE_TAKEN};
use calls::{Accepted, Outcome, Refusal};
use layout::codes::{LINK, NOBODY};
use layout::{Field, Part, Tables, codes};

// 4: endpoint e, which is absent, is made. An absent one has no waiter and no abort, so only the status changes.
pub fn create_endpoint(tables: &mut Tables, e: usize) -> Outcome
    requires { Shown tables.old (Asked (e ≤ 63)) }
    ensures { Performs tables.old tables.new (answer_of result) (Asked (e ≤ 63)) (create_endpoint e) }
{
    let status = store::endpoint(tables, Part::Status, e);
    if status != codes::MISSING {
        return Err(Refusal::EndpointPresent);
    }
    store::set_status(tables, e, codes::LIVE);
    endings::done(tables)
}

// The first waiter at endpoint e if it is at this place, sending or receiving; otherwise no waiter is.
fn first_waiter(tables: &Tables, e: usize, place: u32) -> Option<usize>
    requires { Shown tables.now (Alike e) }
    ensures { FirstAt tables.now e place (link_of (maybe_of result)) }
{
    match debts::first_at(tables, e, place) {
        NOBODY => None,
        link => Some((link - LINK) as usize),
    }
}

// The message goes to the first receiver at endpoint e; without one the caller t waits there to send it.
fn hand(tables: &mut Tables, t: usize, e: usize, badge: u32, message: u32) -> Outcome
    requires { Shown tables.old (Dropped t ((e ≤ 63) × (badge < 2 ^ 28) × (message < 2 ^ 28))) }
    ensures { Performs tables.old tables.new (answer_of result)
        (Dropped t ((e ≤ 63) × (badge < 2 ^ 28) × (message < 2 ^ 28))) (handing t e badge message) }
{
    let Some(u) = first_waiter(tables, e, codes::RECEIVING + e as u32) else {
        endpoint_queues::join_endpoint(tables, t, e);
        return waiting::suspend(tables, t, codes::SENDING + e as u32, badge, message);
    };
    endpoint_queues::wake_from(tables, e, u, MESSAGE_RECEIVED, badge, message);
    endings::done(tables)
}

// 7: the running thread t sends to endpoint e.
#[inline(always)]
pub fn send(tables: &mut Tables, t: usize, e: usize, badge: u32, message: u32) -> Outcome
    requires { Shown tables.old (Calling t ((e ≤ 63) × (badge < 2 ^ 28) × (message < 2 ^ 28))) }
    ensures { Performs tables.old tables.new (answer_of result)
        (Calling t ((e ≤ 63) × (badge < 2 ^ 28) × (message < 2 ^ 28))) (sending t e badge message) }
{
    endings::endpoint_open(tables, e)?;
    let under = debts::under_abort(tables, e, badge);
    if under {
        return Err(Refusal::BadgeAborted);
    }
    debts::drop_debt(tables, t);
    hand(tables, t, e, badge, message)
}

// The message of sender u, who waits at endpoint e, is taken; its badge and message are read before it is woken.
fn take_from(tables: &mut Tables, e: usize, u: usize) -> Outcome
    requires { Shown tables.old (TakesFrom u e) }
    ensures { Performs tables.old tables.new (answer_of result) (TakesFrom u e) (taking_from e u) }
{
    let badge = store::thread(tables, Field::Badge, u);
    let message = store::thread(tables, Field::Message, u);
    endpoint_queues::wake_from(tables, e, u, MESSAGE_TAKEN, 0, 0);
    endings::accept(tables, Accepted::Received { badge, message })
}

// The message of the first sender at endpoint e is taken; without one the caller t waits there to receive.
fn take(tables: &mut Tables, t: usize, e: usize) -> Outcome
    requires { Shown tables.old (Dropped t (e ≤ 63)) }
    ensures { Performs tables.old tables.new (answer_of result) (Dropped t (e ≤ 63)) (taking t e) }
{
    let Some(u) = first_waiter(tables, e, codes::SENDING + e as u32) else {
        endpoint_queues::join_endpoint(tables, t, e);
        return waiting::suspend(tables, t, codes::RECEIVING + e as u32, 0, 0);
    };
    take_from(tables, e, u)
}

// 8: the running thread t receives from endpoint e.
#[inline(always)]
pub fn receive(tables: &mut Tables, t: usize, e: usize) -> Outcome
    requires { Shown tables.old (Calling t (e ≤ 63)) }
    ensures { Performs tables.old tables.new (answer_of result) (Calling t (e ≤ 63)) (receiving t e) }
{
    endings::endpoint_open(tables, e)?;
    debts::drop_debt(tables, t);
    take(tables, t, e)
}

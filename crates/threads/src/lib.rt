// The calls that create and destroy a thread. Each does to the sound state that the words show what the machine's call
// does, and answers what it answers; the numbers are in range.
#![tactic(auto)]

ghost use Rattle.std.specs.Prelude.{◌≤◌};
ghost use Rattle.calls.specs.Answers.{answer_of};
ghost use Rattle.machine.specs.Machine.{create_thread, destroy_thread};
ghost use Rattle.store.specs.Steps.{Shown, Does};
ghost use Rattle.endings.specs.Results.{Asked, Performs};
ghost use Rattle.threads.specs.Threads.{Able, leaving_ready, Goes, leaving};
ghost use Rattle.priorities.specs.Priorities.{PriorityInRange};

use calls::{Outcome, Refusal};
use layout::codes::NOBODY;
use layout::{Field, Tables, codes};

// 1: a new thread joins its level's tail.
pub fn create_thread(tables: &mut Tables, t: usize, p: u32) -> Outcome
    requires { Shown tables.old (Asked (PriorityInRange t p)) }
    ensures { Performs tables.old tables.new (answer_of result) (Asked (PriorityInRange t p))
        (create_thread t p) }
{
    let place = store::thread(tables, Field::Place, t);
    if place != codes::ABSENT {
        return Err(Refusal::ThreadPresent);
    }
    store::new_thread(tables, t, p);
    queues::enqueue(tables, t);
    endings::done(tables)
}

// An able thread t stops running, or leaves its level's queue.
fn leave_ready(tables: &mut Tables, t: usize)
    requires { Shown tables.old (Able t) }
    ensures { Does tables.old tables.new (Able t) (leaving_ready t) }
{
    let ready = priorities::is_ready(tables, t);
    if ready {
        queues::unqueue(tables, t);
        return;
    }
    store::set_running(tables, NOBODY);
}

// A destroyed thread leaves any queue or line: t is at the place of this number.
fn leave(tables: &mut Tables, t: usize, place: u32)
    requires { Shown tables.old (Goes t place) }
    ensures { Does tables.old tables.new (Goes t place) (leaving t) }
{
    match place {
        codes::ABLE => leave_ready(tables, t),
        codes::SENDING..codes::RECEIVING => {
            endpoint_queues::leave_endpoint(tables, t, (place - codes::SENDING) as usize)
        }
        codes::RECEIVING..codes::WAITING => {
            endpoint_queues::leave_endpoint(tables, t, (place - codes::RECEIVING) as usize)
        }
        _ => store::set_line(tables, (place - codes::WAITING) as usize, codes::QUIET),
    }
}

// 2: a thread goes, with its note or its place in a set, from wherever it is.
pub fn destroy_thread(tables: &mut Tables, t: usize) -> Outcome
    requires { Shown tables.old (Asked (t ≤ 255)) }
    ensures { Performs tables.old tables.new (answer_of result) (Asked (t ≤ 255)) (destroy_thread t) }
{
    // stays: (d) read once, for this test and for leave, where endings::thread_there would read it twice
    let place = store::thread(tables, Field::Place, t);
    if place == codes::ABSENT {
        return Err(Refusal::ThreadAbsent);
    }
    debts::drop_debt(tables, t); // the set that it is in stands without it
    leave(tables, t, place);
    store::clear_thread(tables, t);
    endings::done(tables)
}

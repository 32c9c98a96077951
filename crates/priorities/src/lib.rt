// Call 3, set priority, and whether a thread is ready. The call does to the sound state that the words show what the
// machine's call does, and answers what it answers; the numbers are in range.
#![tactic(auto)]

ghost use Rattle.calls.specs.Answers.{answer_of};
ghost use Rattle.machine.specs.Machine.{set_priority};
ghost use Rattle.store.specs.Steps.{Shown, Does};
ghost use Rattle.store.specs.Store.{IsThread};
ghost use Rattle.debts.specs.Debts.{Says};
ghost use Rattle.endings.specs.Results.{Asked, Performs};
ghost use Rattle.priorities.specs.Priorities.{ready_in, Changes, changing, PriorityInRange};

use calls::Outcome;
use layout::{Field, Tables, codes, wide};

// Whether thread t is ready: able, and not the one that runs.
pub fn is_ready(tables: &Tables, t: usize) -> bool
    requires { Shown tables.now (IsThread t) }
    ensures { Says tables.now (IsThread t) result (ready_in t) }
{
    let link = (t + wide::LINK) as u32;
    store::thread(tables, Field::Place, t) == codes::ABLE && store::running(tables) != link
}

// Thread t gets another priority, and goes to the new tail if it is ready.
fn change(tables: &mut Tables, t: usize, p: u32)
    requires { Shown tables.old (Changes t p) }
    ensures { Does tables.old tables.new (Changes t p) (changing t p) }
{
    let ready = is_ready(tables, t);
    if ready {
        queues::unqueue(tables, t);
        store::set_priority(tables, t, p);
        queues::enqueue(tables, t);
        return;
    }
    store::set_priority(tables, t, p);
}

// 3: a changed priority moves a ready thread; the same priority changes nothing.
pub fn set_priority(tables: &mut Tables, t: usize, p: u32) -> Outcome
    requires { Shown tables.old (Asked (PriorityInRange t p)) }
    ensures { Performs tables.old tables.new (answer_of result) (Asked (PriorityInRange t p))
        (set_priority t p) }
{
    endings::thread_there(tables, t)?;
    let old = store::thread(tables, Field::Priority, t);
    if old == p {
        return endings::done(tables);
    }
    change(tables, t, p);
    endings::done(tables)
}

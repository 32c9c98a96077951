// Joining and leaving the ready queues, with the summary. Each is a few steps without a loop, and does to whatever
// state the words show what the machine's operation does.
#![tactic(auto)]

ghost use Rattle.machine.specs.Scheduling.{enqueue as enqueueing, enqueue_first, unqueue as unqueueing, stand_down};
ghost use Rattle.machine.specs.Scheduling.{stand_back, wake as waking};
ghost use Rattle.store.specs.Steps.{Shown, Does};
ghost use Rattle.store.specs.Store.{IsThread};
ghost use Rattle.queues.specs.Queues.{Loose, InLevel, InLevelAt, HeadAt, BlocksAt, leave_level};

use layout::codes::NOBODY;
use layout::{Field, Tables, codes};

// Thread t, in no queue, joins the tail of its level's.
pub fn enqueue(tables: &mut Tables, t: usize)
    requires { Shown tables.old (Loose t) }
    ensures { Does tables.old tables.new (Loose t) (enqueueing t) }
{
    let p = store::thread(tables, Field::Priority, t);
    links::push_tail(tables, p as usize, t);
    store::set_occupied(tables, p);
}

// Thread t, in no queue, joins the head of its level's.
// stays: the machine's enqueue and enqueue_first hold the two, and its stand_down and stand_back those that call them.
fn enqueue_first(tables: &mut Tables, t: usize)
    requires { Shown tables.old (Loose t) }
    ensures { Does tables.old tables.new (Loose t) (enqueue_first t) }
{
    let p = store::thread(tables, Field::Priority, t);
    links::push_head(tables, p as usize, t);
    store::set_occupied(tables, p);
}

// Thread t leaves the queue of level p, which is empty in the summary if nobody is left there.
fn leave_level(tables: &mut Tables, p: u32, t: usize)
    requires { Shown tables.old (InLevelAt p t) }
    ensures { Does tables.old tables.new (InLevelAt p t) (leave_level p t) }
{
    links::unlink(tables, p as usize, t);
    let first = links::first(tables, p as usize);
    if first == NOBODY {
        store::set_empty(tables, p);
    }
}

// Thread t, the first of level p, leaves its queue, which is empty in the summary if nobody is left there.
pub fn leave_head(tables: &mut Tables, p: u32, t: usize)
    requires { Shown tables.old (HeadAt p t) }
    ensures { Does tables.old tables.new (InLevelAt p t) (leave_level p t) }
{
    let next = links::pop_head(tables, p as usize, t);
    if next == NOBODY {
        store::set_empty(tables, p);
    }
}

// Thread t leaves its level's queue.
pub fn unqueue(tables: &mut Tables, t: usize)
    requires { Shown tables.old (InLevel t) }
    ensures { Does tables.old tables.new (InLevel t) (unqueueing t) }
{
    let p = store::thread(tables, Field::Priority, t);
    leave_level(tables, p, t);
}

// The running thread t goes to its level's tail, and nobody runs.
pub fn stand_down(tables: &mut Tables, t: usize)
    requires { Shown tables.old (Loose t) }
    ensures { Does tables.old tables.new (Loose t) (stand_down t) }
{
    store::set_running(tables, NOBODY);
    enqueue(tables, t);
}

// The running thread t is displaced: it goes to its level's head, and nobody runs.
pub fn stand_back(tables: &mut Tables, t: usize)
    requires { Shown tables.old (Loose t) }
    ensures { Does tables.old tables.new (Loose t) (stand_back t) }
{
    store::set_running(tables, NOBODY);
    enqueue_first(tables, t);
}

// Thread t, in no queue, is woken with an outcome, and joins its level's tail.
pub fn wake(tables: &mut Tables, t: usize, outcome: u32, badge: u32, message: u32)
    requires { Shown tables.old (Loose t) }
    ensures { Does tables.old tables.new (Loose t) (waking t outcome badge message) }
{
    store::set_place(tables, t, codes::ABLE, outcome, badge, message);
    enqueue(tables, t);
}

// The running thread t blocks at a place, and nobody runs.
pub fn block(tables: &mut Tables, t: usize, place: u32, badge: u32, message: u32)
    requires { Shown tables.old (IsThread t) }
    ensures { BlocksAt tables.old t place badge message tables.new }
{
    store::set_running(tables, NOBODY);
    store::set_place(tables, t, place, calls::codes::NO_OUTCOME, badge, message);
}

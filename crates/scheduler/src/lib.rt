// Who runs: the head of the highest ready queue. Each is a few steps without a loop, and does to whatever state the
// words show what the machine's operation does.
#![tactic(auto)]

ghost use Rattle.std.proofs.Math.Option.{some};
ghost use Rattle.machine.specs.Scheduling.{dispatch as dispatching, choose_for, choose as choosing};
ghost use Rattle.store.specs.Steps.{Shown, Does};
ghost use Rattle.store.specs.Store.{Any};
ghost use Rattle.queues.specs.Queues.{Loose, Chooses, FindsLevel};

use layout::codes::NOBODY;
use layout::{Field, Tables, wide};

// The highest occupied level, if there is one.
fn highest_level(tables: &Tables) -> Option<u32>
    requires { Shown tables.now Any }
    ensures { FindsLevel tables.now result }
{
    let summary = store::load_summary(tables);
    summary.highest()
}

// The head of the highest queue, if anybody is ready, runs.
pub fn dispatch(tables: &mut Tables)
    requires { Shown tables.old Any }
    ensures { Does tables.old tables.new Any dispatching }
{
    let Some(p) = highest_level(tables) else {
        return;
    };
    let link = links::first(tables, p as usize);
    queues::leave_head(tables, p, link as usize - wide::LINK);
    store::set_running(tables, link);
}

// The running thread t is displaced if a level above its own is occupied.
fn displace(tables: &mut Tables, t: usize)
    requires { Shown tables.old (Loose t) }
    ensures { Does tables.old tables.new (Loose t) (choose_for (some t)) }
{
    let p = store::thread(tables, Field::Priority, t);
    let Some(highest) = highest_level(tables) else {
        return;
    };
    if p < highest {
        queues::stand_back(tables, t);
        dispatch(tables);
    }
}

// If nobody runs, or a level above the running thread's is occupied, the head of the highest queue runs.
pub fn choose(tables: &mut Tables)
    requires { Shown tables.old Chooses }
    ensures { Does tables.old tables.new Chooses choosing }
{
    match store::running(tables) {
        NOBODY => dispatch(tables),
        link => displace(tables, link as usize - wide::LINK),
    }
}

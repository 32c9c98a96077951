// The calls on a thread's time: tick and yield. Each does to the sound state that the words show what the machine's
// call does, and answers what it answers; the numbers are in range.
#![tactic(auto)]

ghost use Rattle.std.proofs.Math.Option.{some};
ghost use Rattle.calls.specs.Answers.{answer_of};
ghost use Rattle.machine.specs.Machine.{tick_for, tick as ticking, yield};
ghost use Rattle.store.specs.Steps.{Shown, Does};
ghost use Rattle.endings.specs.Results.{Asked, Calling, Performs};
ghost use Rattle.time_slices.specs.Ticks.{ticking_for};

use calls::Outcome;
use layout::Tables;
use layout::codes::{LINK, NOBODY};

// The running thread u has a tick less; at the last it has 5 again and goes to its tail. The tick changes the thread's
// block where it is lent.
fn take_tick(tables: &mut Tables, u: usize)
    requires { Shown tables.old (Calling u (Unit {0})) }
    ensures { Does tables.old tables.new (Calling u (Unit {0})) (tick_for (some u)) }
{
    let block = blocks::load(tables, u);
    let after = blocks::lend_to_tick(block);
    blocks::store(tables, u, after);
    if block.ticks != 1 {
        return;
    }
    queues::stand_down(tables, u);
}

// The thread that runs, if one does, has a tick less.
fn tick_running(tables: &mut Tables)
    requires { Shown tables.old (Asked (Unit {0})) }
    ensures { Does tables.old tables.new (Asked (Unit {0})) ticking_for }
{
    match store::running(tables) {
        NOBODY => {}
        link => take_tick(tables, (link - LINK) as usize),
    }
}

// 6: a tick takes one from the running thread.
pub fn tick(tables: &mut Tables) -> Outcome
    requires { Shown tables.old (Asked (Unit {0})) }
    ensures { Performs tables.old tables.new (answer_of result) (Asked (Unit {0})) ticking }
{
    tick_running(tables);
    endings::done(tables)
}

// 9: the running thread t goes to its level's tail.
#[inline(always)]
pub fn yield_running(tables: &mut Tables, t: usize) -> Outcome
    requires { Shown tables.old (Calling t (Unit {0})) }
    ensures { Performs tables.old tables.new (answer_of result) (Calling t (Unit {0})) (yield t) }
{
    debts::drop_debt(tables, t); // an accepted call of its own
    queues::stand_down(tables, t);
    endings::done(tables)
}

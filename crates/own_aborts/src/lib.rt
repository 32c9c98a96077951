// The call's own abort: begun or joined, it works until nothing is left or the allowance is used up.
#![tactic(auto)]

ghost use Rattle.std.specs.Prelude.{◌+◌, ◌≤◌, ◌<◌, ◌^◌};
ghost use Rattle.calls.specs.Answers.{answer_of};
ghost use Rattle.machine.specs.Aborts.{work_own};
ghost use Rattle.store.specs.Steps.{Shown};
ghost use Rattle.endings.specs.Results.{Performs};
ghost use Rattle.own_aborts.specs.Own.{Open, Joining, Continues, own_ended, own_begun, joined_on};

use calls::{Accepted, Outcome};
use layout::codes::NOBODY;
use layout::{Part, Tables, codes};

// The call's own abort ends where nothing is left: the caller leaves its set, and the other members get notes. Else it
// is broken off.
fn end_own(tables: &mut Tables, t: usize, e: usize, count: u32) -> Outcome
    requires { Shown tables.old (Open t e) }
    ensures { Continues tables.old count (answer_of result) (Open t e) (own_ended t e) tables.new }
{
    let cursor = store::endpoint(tables, Part::Cursor, e);
    if cursor != NOBODY {
        return endings::accept(tables, Accepted::BrokenOff(count));
    }
    debts::drop_debt(tables, t); // the note is for the others
    debts::end_abort(tables, e, codes::LIVE);
    endings::accept(tables, Accepted::Ended(count))
}

// The call's own abort works; the call's earlier looks are counted with its own.
pub fn work_own(tables: &mut Tables, t: usize, e: usize, allowance: u32, earlier: u32) -> Outcome
    requires { Shown tables.old (Open t e) × (earlier + allowance ≤ 65535) }
    ensures { Continues tables.old earlier (answer_of result) (Open t e)
        (work_own t e allowance) tables.new }
{
    let n = abort_looks::look_up_to(tables, e, allowance);
    end_own(tables, t, e, earlier + n)
}

// The call's own abort begins, and works.
// stays: t, e and badge apart, as begin and work_own of Aborts take them; each clause would name a struct's fields.
pub fn begin_own(
    tables: &mut Tables,
    t: usize,
    e: usize,
    allowance: u32,
    badge: u32,
    earlier: u32,
) -> Outcome
    requires { Shown tables.old (Open t e) × (earlier + allowance ≤ 65535) × (badge < 2 ^ 28) }
    ensures { Continues tables.old earlier (answer_of result) (Open t e)
        (own_begun t e badge allowance) tables.new }
{
    debts::begin(tables, t, e, badge);
    work_own(tables, t, e, allowance, earlier)
}

// The abort that stands at endpoint e is joined, and works.
pub fn join_own(tables: &mut Tables, t: usize, e: usize, allowance: u32) -> Outcome
    requires { Shown tables.old (Joining t e) × (allowance ≤ 65535) }
    ensures { Performs tables.old tables.new (answer_of result) (Joining t e) (joined_on t e allowance) }
{
    debts::join(tables, t, e);
    work_own(tables, t, e, allowance, 0)
}

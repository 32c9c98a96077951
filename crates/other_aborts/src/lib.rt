// Another badge's abort: it is finished before the call's own begins.
#![tactic(auto)]

ghost use Rattle.std.specs.Prelude.{◌+◌, ◌≤◌, ◌<◌, ◌^◌};
ghost use Rattle.calls.specs.Answers.{answer_of};
ghost use Rattle.machine.specs.Aborts.{begin_after, work_other};
ghost use Rattle.store.specs.Steps.{Shown};
ghost use Rattle.endings.specs.Results.{Performs};
ghost use Rattle.own_aborts.specs.Own.{Open, Continues};

use calls::{Accepted, Outcome};
use layout::codes::NOBODY;
use layout::{Part, Tables, codes};

// After another badge's abort the call's own begins, if allowance remains.
// stays: t, e and badge apart, as begin_after of Aborts takes them; each clause would name a struct's fields.
fn begin_after(
    tables: &mut Tables,
    t: usize,
    e: usize,
    left: u32,
    badge: u32,
    earlier: u32,
) -> Outcome
    requires { Shown tables.old (Open t e) × (earlier + left ≤ 65535) × (badge < 2 ^ 28) }
    ensures { Continues tables.old earlier (answer_of result) (Open t e)
        (begin_after left t e badge) tables.new }
{
    if left == 0 {
        return endings::accept(tables, Accepted::BrokenOff(earlier));
    }
    own_aborts::begin_own(tables, t, e, left, badge, earlier)
}

// Another badge's abort is finished first, at the expense of the allowance.
pub fn work_other(tables: &mut Tables, t: usize, e: usize, allowance: u32, badge: u32) -> Outcome
    requires { Shown tables.old (Open t e) × (allowance ≤ 65535) × (badge < 2 ^ 28) }
    ensures { Performs tables.old tables.new (answer_of result) (Open t e)
        (work_other t e allowance badge) }
{
    let n = abort_looks::look_up_to(tables, e, allowance);
    let pending = store::endpoint(tables, Part::Cursor, e);
    if pending != NOBODY {
        return endings::accept(tables, Accepted::BrokenOff(n));
    }
    debts::end_abort(tables, e, codes::LIVE);
    let rest = allowance - n;
    begin_after(tables, t, e, rest, badge, n)
}

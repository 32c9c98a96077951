// Call 12, the breakable abort of a badge at an endpoint. A caller with a note is answered at once; else the abort that
// stands is joined, or finished if it is of another badge, or begun, and its looks go on until nothing is left or the
// allowance is used up. What is left stands in the tables, so the next call goes on from there.
#![tactic(auto)]

ghost use Rattle.std.specs.Prelude.{◌≤◌, ◌<◌, ◌^◌};
ghost use Rattle.calls.specs.Answers.{answer_of};
ghost use Rattle.machine.specs.Aborts.{abort_open, abort};
ghost use Rattle.store.specs.Steps.{Shown};
ghost use Rattle.endings.specs.Results.{Calling, Performs};
ghost use Rattle.own_aborts.specs.Own.{Open};
ghost use Rattle.aborts.specs.Aborts.{unnoted};

use calls::{Accepted, Outcome};
use layout::{Part, Tables, codes};

// An abort is begun where none stands, joined where it is of this badge, and finished first where it is of another.
// stays: t, e and badge apart, as abort_open of Aborts takes them; each clause would name a struct's fields.
fn abort_open(tables: &mut Tables, t: usize, e: usize, allowance: u32, badge: u32) -> Outcome
    requires { Shown tables.old (Open t e) × (allowance ≤ 65535) × (badge < 2 ^ 28) }
    ensures { Performs tables.old tables.new (answer_of result) (Open t e)
        (abort_open t e allowance badge) }
{
    let here = store::endpoint(tables, Part::Aborting, e);
    if here == codes::NO_ABORT {
        return own_aborts::begin_own(tables, t, e, allowance, badge, 0);
    }
    let same = debts::under_abort(tables, e, badge);
    if same {
        return own_aborts::join_own(tables, t, e, allowance);
    }
    other_aborts::work_other(tables, t, e, allowance, badge)
}

// Refused where the endpoint is missing or closing. Else the caller leaves its set, or loses its note, before the work.
fn abort_at(tables: &mut Tables, t: usize, e: usize, allowance: u32, badge: u32) -> Outcome
    requires { Shown tables.old (Calling t ((e ≤ 63) × (allowance ≤ 65535) × (badge < 2 ^ 28))) }
    ensures { Performs tables.old tables.new (answer_of result)
        (Calling t ((e ≤ 63) × (allowance ≤ 65535) × (badge < 2 ^ 28))) (unnoted t e allowance badge) }
{
    endings::endpoint_open(tables, e)?;
    debts::drop_debt(tables, t);
    abort_open(tables, t, e, allowance, badge)
}

// 12: thread t aborts badge at endpoint e, with at most as many looks as the allowance lets.
#[inline(always)]
pub fn abort(tables: &mut Tables, t: usize, e: usize, allowance: u32, badge: u32) -> Outcome
    requires { Shown tables.old (Calling t ((e ≤ 63) × (allowance ≤ 65535) × (badge < 2 ^ 28))) }
    ensures { Performs tables.old tables.new (answer_of result)
        (Calling t ((e ≤ 63) × (allowance ≤ 65535) × (badge < 2 ^ 28))) (abort t e allowance badge) }
{
    let noted = debts::has_note(tables, t, e, badge);
    if noted {
        debts::drop_debt(tables, t); // the note goes, and nothing else changes
        return endings::accept(tables, Accepted::Done);
    }
    abort_at(tables, t, e, allowance, badge)
}

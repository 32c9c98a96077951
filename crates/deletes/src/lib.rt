// Call 11, the breakable delete of an endpoint. The caller's debt goes, the endpoint is closing and its abort ends, and
// then waiters leave from the head. A delete that its allowance breaks off leaves the endpoint closing, and deleting it
// again goes on.
#![tactic(auto)]

ghost use Rattle.std.specs.Prelude.{◌≤◌};
ghost use Rattle.calls.specs.Answers.{answer_of};
ghost use Rattle.machine.specs.Aborts.{delete_from, delete};
ghost use Rattle.store.specs.Steps.{Shown};
ghost use Rattle.endings.specs.Results.{Calling, Performs};
ghost use Rattle.deletes.specs.Deletes.{Closes, Removes};

use calls::codes::ENDPOINT_GONE;
use calls::{Accepted, Outcome};
use layout::codes::{LINK, NOBODY};
use layout::{Tables, codes};

// Waiters leave the head of endpoint e's queue with outcome 4, until nobody is left or the allowance is used up; how
// many went.
fn remove(tables: &mut Tables, e: usize, allowance: u32) -> u32
    requires { Shown tables.old (Closes e) }
    ensures { Removes tables.old e allowance result tables.new }
{
    for count in 0..allowance {
        let first = links::first(tables, codes::ENDPOINT_QUEUES + e);
        if first == NOBODY {
            return count;
        }
        endpoint_queues::wake_from(tables, e, (first - LINK) as usize, ENDPOINT_GONE, 0, 0);
    }
    allowance
}

// Endpoint e, closing, loses waiters; with nobody left it is missing, and else the delete is broken off.
fn delete_from(tables: &mut Tables, e: usize, allowance: u32) -> Outcome
    requires { Shown tables.old (Closes e) }
    ensures { Performs tables.old tables.new (answer_of result) (Closes e) (delete_from e allowance) }
{
    let count = remove(tables, e, allowance);
    let first = links::first(tables, codes::ENDPOINT_QUEUES + e);
    if first != NOBODY {
        return endings::accept(tables, Accepted::BrokenOff(count));
    }
    store::set_status(tables, e, codes::MISSING);
    endings::accept(tables, Accepted::Ended(count))
}

// 11: thread t deletes endpoint e, removing at most as many waiters as the allowance lets.
#[inline(always)]
pub fn delete(tables: &mut Tables, t: usize, e: usize, allowance: u32) -> Outcome
    requires { Shown tables.old (Calling t (e ≤ 63)) }
    ensures { Performs tables.old tables.new (answer_of result) (Calling t (e ≤ 63))
        (delete t e allowance) }
{
    endings::endpoint_there(tables, e)?;
    debts::drop_debt(tables, t);
    debts::end_abort(tables, e, codes::CLOSING);
    delete_from(tables, e, allowance)
}

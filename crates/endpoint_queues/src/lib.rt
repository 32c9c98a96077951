// Joining and leaving the endpoint queues, with the marks of aborts. Each is a few steps without a loop, and does to
// whatever state the words show what the machine's operation does.
#![tactic(auto)]

ghost use Rattle.machine.specs.Endpoints.{join_endpoint, leave_endpoint, wake_from as rousing};
ghost use Rattle.store.specs.Steps.{Shown, Does};
ghost use Rattle.queues.specs.Queues.{ToEndpoint, InEndpoint, passing_at};

use layout::codes::NOBODY;
use layout::{Part, Tables, codes, wide};

// Thread t, in no queue, joins the tail of endpoint e's.
pub fn join_endpoint(tables: &mut Tables, t: usize, e: usize)
    requires { Shown tables.old (ToEndpoint t e) }
    ensures { Does tables.old tables.new (ToEndpoint t e) (join_endpoint t e) }
{
    links::push_tail(tables, codes::ENDPOINT_QUEUES + e, t);
}

// Thread t goes from those that the abort at endpoint e has to look at: a mark that it is passes to its neighbour.
pub fn pass_marks(tables: &mut Tables, t: usize, e: usize)
    requires { Shown tables.old (InEndpoint t e) }
    ensures { Does tables.old tables.new (InEndpoint t e) (passing_at t e) }
{
    let link = (t + wide::LINK) as u32;
    let cursor = store::endpoint(tables, Part::Cursor, e);
    let end = store::endpoint(tables, Part::End, e);
    match (cursor == link, end == link) {
        (true, true) => store::set_marks(tables, e, NOBODY, NOBODY),
        (true, false) => store::set_marks(tables, e, links::next(tables, t), end),
        (false, true) => store::set_marks(tables, e, cursor, links::prev(tables, t)),
        (false, false) => {}
    }
}

// Thread t leaves the queue of endpoint e, and an abort that stands there has not to look at it any more.
pub fn leave_endpoint(tables: &mut Tables, t: usize, e: usize)
    requires { Shown tables.old (InEndpoint t e) }
    ensures { Does tables.old tables.new (InEndpoint t e) (leave_endpoint t e) }
{
    pass_marks(tables, t, e);
    links::unlink(tables, codes::ENDPOINT_QUEUES + e, t);
}

// Thread t leaves the queue of endpoint e and is woken with an outcome.
pub fn wake_from(tables: &mut Tables, e: usize, t: usize, outcome: u32, badge: u32, message: u32)
    requires { Shown tables.old (InEndpoint t e) }
    ensures { Does tables.old tables.new (InEndpoint t e)
        (rousing e t outcome badge message) }
{
    leave_endpoint(tables, t, e);
    queues::wake(tables, t, outcome, badge, message);
}

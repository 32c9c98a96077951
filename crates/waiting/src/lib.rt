// The running thread blocks: the end that send, receive and wait have in common.
#![tactic(auto)]

ghost use Rattle.calls.specs.Answers.{answer_of};
ghost use Rattle.store.specs.Steps.{Shown};
ghost use Rattle.store.specs.Store.{IsThread};
ghost use Rattle.waiting.specs.Waiting.{Suspends};

use calls::{Accepted, Outcome};
use layout::Tables;

// The running thread t blocks at a place: code 1.
pub fn suspend(tables: &mut Tables, t: usize, place: u32, badge: u32, message: u32) -> Outcome
    requires { Shown tables.old (IsThread t) }
    ensures { Suspends tables.old t place badge message (answer_of result) tables.new }
{
    queues::block(tables, t, place, badge, message);
    endings::accept(tables, Accepted::Blocked)
}

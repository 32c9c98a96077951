// How a call ends: refused, or accepted, after which somebody is chosen once; and the tests that several calls make of
// what they name. What a call's steps ask follows from the soundness of the state, in proofs/Conditions.
#![tactic(auto)]

ghost use Rattle.calls.specs.Answers.{accepted_as, answer_of};
ghost use Rattle.machine.specs.Results.{done};
ghost use Rattle.store.specs.Steps.{Shown};
ghost use Rattle.store.specs.Store.{IsThread, IsEndpoint};
ghost use Rattle.queues.specs.Queues.{Chooses};
ghost use Rattle.endings.specs.Results.{Performs, Accepts};
ghost use Rattle.endings.specs.Tests.{Tests, thread_there, endpoint_there, endpoint_open};

use calls::{Accepted, Answer, Outcome, Refusal};
use layout::{Field, Part, Tables, codes};

// Thread t is there; otherwise the call is refused by 21.
pub fn thread_there(tables: &Tables, t: usize) -> Result<(), Refusal>
    requires { Shown tables.now (IsThread t) }
    ensures { Tests tables.now (IsThread t) result (thread_there t) }
{
    match store::thread(tables, Field::Place, t) {
        codes::ABSENT => Err(Refusal::ThreadAbsent),
        _ => Ok(()),
    }
}

// Endpoint e is there, live or closing; otherwise the call is refused by 23.
pub fn endpoint_there(tables: &Tables, e: usize) -> Result<(), Refusal>
    requires { Shown tables.now (IsEndpoint e) }
    ensures { Tests tables.now (IsEndpoint e) result (endpoint_there e) }
{
    match store::endpoint(tables, Part::Status, e) {
        codes::LIVE | codes::CLOSING => Ok(()),
        _ => Err(Refusal::EndpointAbsent),
    }
}

// Endpoint e is live; otherwise the call is refused by 23 or 25.
pub fn endpoint_open(tables: &Tables, e: usize) -> Result<(), Refusal>
    requires { Shown tables.now (IsEndpoint e) }
    ensures { Tests tables.now (IsEndpoint e) result (endpoint_open e) }
{
    match store::endpoint(tables, Part::Status, e) {
        codes::MISSING => Err(Refusal::EndpointAbsent),
        codes::CLOSING => Err(Refusal::EndpointClosing),
        _ => Ok(()),
    }
}

// An accepted call is answered after somebody is chosen.
pub fn accept(tables: &mut Tables, accepted: Accepted) -> Outcome
    requires { Shown tables.old Chooses }
    ensures { Accepts tables.old (accepted_as accepted) (answer_of result) Chooses tables.new }
{
    scheduler::choose(tables);
    Ok(accepted)
}

// The same of any four numbers as the answer.
pub fn accept_as(tables: &mut Tables, answer: Answer) -> Answer
    requires { Shown tables.old Chooses }
    ensures { Accepts tables.old answer result Chooses tables.new }
{
    scheduler::choose(tables);
    answer
}

// The call is done: code 0.
pub fn done(tables: &mut Tables) -> Outcome
    requires { Shown tables.old Chooses }
    ensures { Performs tables.old tables.new (answer_of result) Chooses done }
{
    scheduler::choose(tables);
    Ok(Accepted::Done)
}

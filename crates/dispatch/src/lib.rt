// A call in range, carried out by its kind on tables that show a sound state.
#![tactic(auto)]

ghost use Rattle.std.specs.Prelude.{◌≡◌, ◌≤◌, length};
ghost use Rattle.calls.specs.declared.Call.TheVariants.{CreateThread, CreateEndpoint, Grant};
ghost use Rattle.calls.specs.Answers.{answer_of};
ghost use Rattle.machine.specs.Machine.{create_thread, create_endpoint, perform, grant};
ghost use Rattle.store.specs.Steps.{Shown};
ghost use Rattle.grants.specs.Memory.{grant_words};
ghost use Rattle.endings.specs.Results.{Asked, Calling, Performs};
ghost use Rattle.dispatch.specs.Steps.{Own, Served, Grantable, Regrants};

use calls::{Accepted, Call, Outcome};
use grants::Grants;
use layout::Tables;
use layout::codes::LINK;

// 1: a thread that was created has no grants.
fn create_thread(tables: &mut Tables, grants: &mut Grants, t: usize, p: u32) -> Outcome
    requires { Shown tables.old (Asked ((t ≤ 255) × (p ≤ 255))) }
    ensures performs { Performs tables.old tables.new (answer_of result) (Asked ((t ≤ 255) × (p ≤ 255)))
        (create_thread t p) }
    ensures regrants { Regrants grants.old grants.new (answer_of result) (CreateThread t p) }
{
    let accepted = threads::create_thread(tables, t, p)?;
    grants::clear_thread(grants, t);
    Ok(accepted)
}

// 4: at an endpoint that was created nobody has.
fn create_endpoint(tables: &mut Tables, grants: &mut Grants, e: usize) -> Outcome
    requires { Shown tables.old (Asked (e ≤ 63)) }
    ensures performs { Performs tables.old tables.new (answer_of result) (Asked (e ≤ 63)) (create_endpoint e) }
    ensures regrants { Regrants grants.old grants.new (answer_of result) (CreateEndpoint e) }
{
    let accepted = transfers::create_endpoint(tables, e)?;
    grants::clear_endpoint(grants, e);
    Ok(accepted)
}

// Whether thread and endpoint are there, as call 13 asks. Nothing of the tables changes, so whoever runs goes on.
fn grantable(tables: &Tables, t: usize, e: usize) -> Outcome
    requires { Shown tables.now (Asked ((t ≤ 255) × (e ≤ 63))) }
    ensures { Performs tables.now tables.now (answer_of result) (Asked ((t ≤ 255) × (e ≤ 63)))
        (grant t e) }
{
    endings::thread_there(tables, t)?;
    endings::endpoint_there(tables, e)?;
    Ok(Accepted::Done)
}

// 13: what is granted stands in the grants.
fn grant(
    tables: &Tables,
    grants: &mut Grants,
    t: usize,
    e: usize,
    rights: u32,
    badge: u32,
) -> Outcome
    requires { Shown tables.now (Asked (Grantable t e rights badge)) }
    ensures performs { Performs tables.now tables.now (answer_of result) (Asked (Grantable t e rights badge))
        (grant t e) }
    ensures regrants { Regrants grants.old grants.new (answer_of result) (Grant t e rights badge) }
{
    let accepted = grantable(tables, t, e)?;
    grants::give(grants, t, e, rights, badge);
    Ok(accepted)
}

// A call of the running thread t: 7 to 12.
#[inline(always)]
fn own_call(tables: &mut Tables, t: usize, c: Call) -> Outcome
    requires { Shown tables.old (Calling t (Own c)) }
    ensures { Performs tables.old tables.new (answer_of result) (Calling t (Own c)) (perform c) }
{
    match c {
        Call::Send {
            endpoint,
            badge,
            message,
        } => transfers::send(tables, t, endpoint as usize, badge, message),
        Call::Receive { endpoint } => transfers::receive(tables, t, endpoint as usize),
        Call::Yield => time_slices::yield_running(tables, t),
        Call::Wait { line } => lines::wait(tables, t, line as usize),
        Call::Delete {
            endpoint,
            allowance,
        } => deletes::delete(tables, t, endpoint as usize, allowance),
        Call::Abort {
            endpoint,
            allowance,
            badge,
        } => aborts::abort(tables, t, endpoint as usize, allowance, badge),
        _ => unreachable!(),
    }
}

// A call by its kind: 7 to 12 are made by the running thread, that of the link.
// stays: a link, as Served and link_of have it; an Option would only be taken apart again in the last arm.
#[inline(always)]
pub fn carry_out(tables: &mut Tables, grants: &mut Grants, link: u32, c: Call) -> Outcome
    requires { Shown tables.old (Served link c) }
    ensures performs { Performs tables.old tables.new (answer_of result) (Served link c) (perform c) }
    ensures regrants { Regrants grants.old grants.new (answer_of result) c }
{
    match c {
        Call::CreateThread { thread, priority } => {
            create_thread(tables, grants, thread as usize, priority)
        }
        Call::DestroyThread { thread } => threads::destroy_thread(tables, thread as usize),
        Call::SetPriority { thread, priority } => {
            priorities::set_priority(tables, thread as usize, priority)
        }
        Call::CreateEndpoint { endpoint } => create_endpoint(tables, grants, endpoint as usize),
        Call::Interrupt { line } => lines::interrupt(tables, line as usize),
        Call::Tick => time_slices::tick(tables),
        Call::Grant {
            thread,
            endpoint,
            rights,
            badge,
        } => grant(
            tables,
            grants,
            thread as usize,
            endpoint as usize,
            rights,
            badge,
        ),
        _ => own_call(tables, (link - LINK) as usize, c),
    }
}

// The core: takes a call on the lent tables, under the lent grants.
#![tactic(auto)]

ghost use Rattle.std.specs.Prelude.{◌≡◌, length};
ghost use Rattle.calls.specs.Answers.{answer_of};
ghost use Rattle.machine.specs.Sound.{Sound};
ghost use Rattle.store.specs.Steps.{Shown};
ghost use Rattle.grants.specs.Memory.{grant_words, grants_of};
ghost use Rattle.lent_tables.specs.Entries.{lent, Called, called};
ghost use Rattle.endings.specs.Results.{Asked, Performs};
ghost use Rattle.dispatch.specs.Steps.{Ranged, admitting, stepping, Regrants};

use calls::{Answer, Call, Outcome, Refusal};
use grants::Grants;
use layout::codes::{LINK, NOBODY};
use layout::{Scratch, Tables};

// A call whose numbers are in range; one that needs a running thread is refused by 20 where none runs, and by 29 where
// that thread lacks a right.
fn admit(tables: &mut Tables, grants: &mut Grants, c: Call) -> Outcome
    requires { Shown tables.old (Asked (Ranged c)) }
    ensures performs { Performs tables.old tables.new (answer_of result) (Asked (Ranged c))
        (admitting (grants_of grants.old) c) }
    ensures regrants { Regrants grants.old grants.new (answer_of result) c }
{
    let link = store::running(tables);
    if calls::is_own(calls::number(c)) {
        if link == NOBODY {
            return Err(Refusal::NobodyRuns);
        }
        if grants::lacks(grants, (link - LINK) as usize, c) {
            return Err(Refusal::NoRight);
        }
    }
    dispatch::carry_out(tables, grants, link, c)
}

// The machine's step on tables that show a sound state.
fn step(tables: &mut Tables, grants: &mut Grants, c: Call) -> Outcome
    requires { Shown tables.old Sound }
    ensures performs { Performs tables.old tables.new (answer_of result) Sound
        (stepping (grants_of grants.old) c) }
    ensures regrants { Regrants grants.old grants.new (answer_of result) c }
{
    if !calls::in_range(c) {
        return Err(Refusal::Range);
    }
    admit(tables, grants, c)
}

// The step where the check of what is lent passes.
fn checked_step(tables: &mut Tables, grants: &mut Grants, scratch: &mut Scratch, c: Call) -> Outcome
    ensures { ◌≡◌ {A = Called}
        (record { answer = answer_of result; left = lent tables.new grants.new scratch.new })
        (called (lent tables.old grants.old scratch.old) c) }
{
    lent_tables::verify(tables, grants, scratch)?;
    step(tables, grants, c)
}

// The same on memories of any length: those that have not their own are refused by 16.
#[tactic(auto, unfolding(lent_tables::specs::Entries::called))]
fn sized_step(tables: &mut [u32], grants: &mut [u32], scratch: &mut [u32], c: Call) -> Outcome
    ensures { ◌≡◌ {A = Called}
        (record { answer = answer_of result; left = lent tables.new grants.new scratch.new })
        (called (lent tables.old grants.old scratch.old) c) }
{
    let tables: &mut Tables = tables.as_mut_array().ok_or(Refusal::Length)?;
    let grants: &mut Grants = grants.as_mut_array().ok_or(Refusal::Length)?;
    let scratch: &mut Scratch = scratch.as_mut_array().ok_or(Refusal::Length)?;
    checked_step(tables, grants, scratch, c)
}

// Takes a call on tables, grants and scratch of any length and content.
pub fn call(tables: &mut [u32], grants: &mut [u32], scratch: &mut [u32], c: Call) -> Answer
    ensures { ◌≡◌ {A = Called}
        (record { answer = result; left = lent tables.new grants.new scratch.new })
        (called (lent tables.old grants.old scratch.old) c) }
{
    Answer::from(sized_step(tables, grants, scratch, c))
}

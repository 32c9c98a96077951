// A call as six plain numbers: its number, subject, argument, badge, message and rights. Those that it has not are 0.
// Named by them, and read from a journal and written to it as them.
#![tactic(auto)]

ghost use Rattle.std.specs.Prelude.{◌≡◌};
ghost use Rattle.calls.specs.Answers.{maybe_of};
ghost use Rattle.journal.specs.Steps.{result_written};
ghost use Rattle.numbers.specs.Numbers.{call_in, numbers_of};
ghost use Rattle.numbers.specs.Journal.{reading, written_for};

pub mod types;

use crate::types::Reading;
use calls::{Call, Refusal};
use journal::types::{Read, Words};

// That the journal has ended: no code of an answer.
const ENDED: u32 = 255;

// The call that six numbers name. A grant's subject is the thread, its argument the endpoint.
#[inline(always)]
#[tactic(auto, unfolding(crate::specs::Numbers::call_in, journal::specs::Words::call_of))]
pub fn call_in(numbers: [u32; 6]) -> Option<Call>
    ensures { maybe_of result ≡ call_in numbers }
{
    match numbers {
        [13, thread, endpoint, badge, 0, rights] => Some(Call::Grant {
            thread,
            endpoint,
            rights,
            badge,
        }),
        [7, endpoint, 0, badge, message, 0] => Some(Call::Send {
            endpoint,
            badge,
            message,
        }),
        [12, endpoint, allowance, badge, 0, 0] => Some(Call::Abort {
            endpoint,
            allowance,
            badge,
        }),
        [number, subject, argument, 0, 0, 0] => decoding::short_call(number, subject, argument),
        _ => None,
    }
}

// The six numbers of a call.
// stays: (d) neither type is this crate's, so From would have to stand in calls, away from `call_in`.
#[tactic(auto, unfolding(crate::specs::Numbers::numbers_of))]
pub fn numbers_of(call: Call) -> [u32; 6]
    ensures { result ≡ numbers_of call }
{
    match call {
        Call::CreateThread { thread, priority } => [1, thread, priority, 0, 0, 0],
        Call::DestroyThread { thread } => [2, thread, 0, 0, 0, 0],
        Call::SetPriority { thread, priority } => [3, thread, priority, 0, 0, 0],
        Call::CreateEndpoint { endpoint } => [4, endpoint, 0, 0, 0, 0],
        Call::Interrupt { line } => [5, line, 0, 0, 0, 0],
        Call::Tick => [6, 0, 0, 0, 0, 0],
        Call::Send {
            endpoint,
            badge,
            message,
        } => [7, endpoint, 0, badge, message, 0],
        Call::Receive { endpoint } => [8, endpoint, 0, 0, 0, 0],
        Call::Yield => [9, 0, 0, 0, 0, 0],
        Call::Wait { line } => [10, line, 0, 0, 0, 0],
        Call::Delete {
            endpoint,
            allowance,
        } => [11, endpoint, allowance, 0, 0, 0],
        Call::Abort {
            endpoint,
            allowance,
            badge,
        } => [12, endpoint, allowance, badge, 0, 0],
        Call::Grant {
            thread,
            endpoint,
            rights,
            badge,
        } => [13, thread, endpoint, badge, 0, rights],
    }
}

// Reads the call at a word of the journal.
#[tactic(auto, unfolding(crate::specs::Journal::reading))]
pub fn read(journal: &[u32], at: usize) -> Reading
    ensures { result ≡ reading journal.now at }
{
    match parsing::read(journal, at) {
        Read::Found { call, next } => Reading {
            code: 0,
            at: next,
            call: numbers_of(call),
        },
        Read::Refused { code, at } => Reading {
            code,
            at,
            call: [0; 6],
        },
        Read::Ended => Reading {
            code: ENDED,
            at,
            call: [0; 6],
        },
    }
}

// The words of the call that the numbers name, if they name one.
pub fn write(named: Option<Call>) -> Result<Words, Refusal>
    ensures { result_written result ≡ written_for (maybe_of named) }
{
    let call = named.ok_or(Refusal::NoCall)?;
    encoding::write(call)
}

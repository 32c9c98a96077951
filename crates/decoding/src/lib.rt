// The call that words or numbers name.
#![tactic(auto)]

ghost use Rattle.std.specs.Prelude.{◌≡◌, []};
ghost use Rattle.calls.specs.Answers.{maybe_of};
ghost use Rattle.journal.specs.Words.{number_in, send_of, abort_of, grant_of, call_of, call_at};

use calls::Call;
use calls::codes::BADGES;

// The top bits of a call word, and of the words after it.
// stays: (d) each is compared with bits of a word, once; an enum would need its numbers told again.
const CALL: u32 = 1;

const BADGE: u32 = 2;

const MESSAGE: u32 = 3;

// The number in the word that the rest of the journal begins with, if that has these top bits.
fn number_in(rest: &[u32], top: u32) -> Option<u32>
    ensures { maybe_of result ≡ number_in top rest.now }
{
    let word = *rest.first()?;
    (word >> 28 == top).then_some(word % BADGES)
}

fn send(endpoint: u32, rest: &[u32]) -> Option<Call>
    ensures { maybe_of result ≡ send_of endpoint rest.now }
{
    let badge = number_in(rest, BADGE)?;
    let message = number_in(&rest[1..], MESSAGE)?;
    Some(Call::Send {
        endpoint,
        badge,
        message,
    })
}

fn abort(endpoint: u32, allowance: u32, rest: &[u32]) -> Option<Call>
    ensures { maybe_of result ≡ abort_of endpoint allowance rest.now }
{
    let badge = number_in(rest, BADGE)?;
    Some(Call::Abort {
        endpoint,
        allowance,
        badge,
    })
}

// The endpoint and the rights are parts of the argument, whose other bits are 0.
fn grant(thread: u32, argument: u32, rest: &[u32]) -> Option<Call>
    ensures { maybe_of result ≡ grant_of thread argument rest.now }
{
    let badge = number_in(rest, BADGE)?;
    if (argument >> 6) % 4 != 0 || argument >> 12 != 0 {
        return None;
    }
    Some(Call::Grant {
        thread,
        endpoint: argument % 64,
        rights: (argument >> 8) % 16,
        badge,
    })
}

// The call of a number, a subject and an argument alone. Those that a call has not are 0.
#[tactic(auto, unfolding(journal::specs::Words::call_of))]
pub fn short_call(number: u32, subject: u32, argument: u32) -> Option<Call>
    ensures { maybe_of result ≡ call_of number subject argument [] }
{
    match (number, subject, argument) {
        (1, thread, priority) => Some(Call::CreateThread { thread, priority }),
        (2, thread, 0) => Some(Call::DestroyThread { thread }),
        (3, thread, priority) => Some(Call::SetPriority { thread, priority }),
        (4, endpoint, 0) => Some(Call::CreateEndpoint { endpoint }),
        (5, line, 0) => Some(Call::Interrupt { line }),
        (6, 0, 0) => Some(Call::Tick),
        (8, endpoint, 0) => Some(Call::Receive { endpoint }),
        (9, 0, 0) => Some(Call::Yield),
        (10, line, 0) => Some(Call::Wait { line }),
        (11, endpoint, allowance) => Some(Call::Delete {
            endpoint,
            allowance,
        }),
        _ => None,
    }
}

// The call of the parts of a call word, with the words after it, which the rest of the journal begins with.
#[tactic(auto, unfolding(journal::specs::Words::call_of))]
fn call_of(number: u32, subject: u32, argument: u32, rest: &[u32]) -> Option<Call>
    ensures { maybe_of result ≡ call_of number subject argument rest.now }
{
    match (number, argument) {
        (7, 0) => send(subject, rest),
        (12, allowance) => abort(subject, allowance, rest),
        (13, argument) => grant(subject, argument, rest),
        _ => short_call(number, subject, argument),
    }
}

// The call that a word begins, with the words after it.
#[tactic(auto, unfolding(journal::specs::Words::call_at))]
pub fn call_at(word: u32, rest: &[u32]) -> Option<Call>
    ensures { maybe_of result ≡ call_at word rest.now }
{
    if word >> 28 != CALL {
        return None;
    }
    call_of((word >> 24) % 16, (word >> 16) % 256, word % 0x1_0000, rest)
}

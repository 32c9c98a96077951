// The words of a call.
#![tactic(auto)]

ghost use Rattle.std.specs.Prelude.{◌≡◌, true, ◌∷◌, [], ◌<◌};
ghost use Rattle.calls.specs.Calls.{in_range};
ghost use Rattle.journal.specs.Words.{call_word, badge_word, message_word, as_written, words_of, written};
ghost use Rattle.journal.specs.Steps.{words_written, result_written};

use calls::{Call, Refusal};
use journal::types::Words;

fn call_word(number: u32, subject: u32, argument: u32) -> u32
    requires { (number < 16) × (subject < 256) × (argument < 65536) }
    ensures { result ≡ call_word number subject argument }
{
    0x1000_0000 + number * 0x0100_0000 + subject * 0x1_0000 + argument
}

// A call that is its call word alone.
// stays: (d) one function for one, two and three words would have to be told which spare words it leaves.
fn one_word(number: u32, subject: u32, argument: u32) -> Words
    requires { (number < 16) × (subject < 256) × (argument < 65536) }
    ensures { words_written result ≡ as_written (call_word number subject argument ∷ []) }
{
    Words {
        count: 1,
        words: [call_word(number, subject, argument), 0, 0],
    }
}

fn send_words(endpoint: u32, badge: u32, message: u32) -> Words
    requires { (endpoint < 256) × (badge < 0x10000000) × (message < 0x10000000) }
    ensures { words_written result
        ≡ as_written (call_word 7 endpoint 0 ∷ badge_word badge ∷ message_word message ∷ []) }
{
    let first = call_word(7, endpoint, 0);
    Words {
        count: 3,
        words: [first, 0x2000_0000 + badge, 0x3000_0000 + message],
    }
}

// A call that is its call word and a badge word.
fn two_words(number: u32, subject: u32, argument: u32, badge: u32) -> Words
    requires { (number < 16) × (subject < 256) × (argument < 65536) × (badge < 0x10000000) }
    ensures { words_written result ≡ as_written (call_word number subject argument ∷ badge_word badge ∷ []) }
{
    let first = call_word(number, subject, argument);
    Words {
        count: 2,
        words: [first, 0x2000_0000 + badge, 0],
    }
}

#[tactic(auto, unfolding(journal::specs::Words::words_of))]
fn words_of(call: Call) -> Words
    requires { in_range call ≡ true }
    ensures { words_written result ≡ as_written (words_of call) }
{
    match call {
        Call::CreateThread { thread, priority } => one_word(1, thread, priority),
        Call::DestroyThread { thread } => one_word(2, thread, 0),
        Call::SetPriority { thread, priority } => one_word(3, thread, priority),
        Call::CreateEndpoint { endpoint } => one_word(4, endpoint, 0),
        Call::Interrupt { line } => one_word(5, line, 0),
        Call::Tick => one_word(6, 0, 0),
        Call::Send {
            endpoint,
            badge,
            message,
        } => send_words(endpoint, badge, message),
        Call::Receive { endpoint } => one_word(8, endpoint, 0),
        Call::Yield => one_word(9, 0, 0),
        Call::Wait { line } => one_word(10, line, 0),
        Call::Delete {
            endpoint,
            allowance,
        } => one_word(11, endpoint, allowance),
        Call::Abort {
            endpoint,
            allowance,
            badge,
        } => two_words(12, endpoint, allowance, badge),
        Call::Grant {
            thread,
            endpoint,
            rights,
            badge,
        } => two_words(13, thread, rights * 0x100 + endpoint, badge),
    }
}

// The words of a call, if its numbers are in range.
#[tactic(auto, unfolding(journal::specs::Words::written))]
pub fn write(call: Call) -> Result<Words, Refusal>
    ensures { result_written result ≡ written call }
{
    if !calls::in_range(call) {
        return Err(Refusal::Range);
    }
    Ok(words_of(call))
}

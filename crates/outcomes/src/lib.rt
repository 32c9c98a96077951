// What came of a call.
#![tactic(auto)]

ghost use Rattle.std.specs.Prelude.{◌≡◌, ◌+◌, ◌≤◌, ◌++◌, length};
ghost use Rattle.wording.specs.Sentence.{cause, outcome, detail, details, asks_count, asks_message};

use calls::{Answer, codes};
use texts::Line;
use wording::one;

// Why, for the numbers that have a cause.
// stays: a number, no Refusal, since an answer from C has any number for its code (`sentence_in`, `cause`)
#[tactic(auto, unfolding(wording::specs::Sentence::cause, texts::specs::Text::bytes))]
fn cause<const N: usize>(line: &mut Line<N>, code: u32)
    requires { length line.old + length (cause code) ≤ N }
    ensures { line.new ≡ line.old ++ cause code }
{
    match code {
        16 => line.say(b", wrong memory length"),
        17 => line.say(b", memory is not sound"),
        18 => line.say(b", this is no call"),
        19 => line.say(b", number out of range"),
        20 => line.say(b", no thread runs"),
        21 => line.say(b", no such thread"),
        22 => line.say(b", the thread exists"),
        23 => line.say(b", no such endpoint"),
        24 => line.say(b", the endpoint exists"),
        25 => line.say(b", endpoint is closing"),
        26 => line.say(b", badge is under abort"),
        27 => line.say(b", the line has a waiter"),
        28 => line.say(b", buffer too short"),
        29 => line.say(b", lacks right or badge"),
        30 => line.say(b", too much to bill"),
        _ => {}
    }
}

// The outcome.
#[tactic(auto, unfolding(wording::specs::Sentence::outcome, texts::specs::Text::bytes))]
pub fn outcome<const N: usize>(line: &mut Line<N>, code: u32)
    requires { length line.old + length (outcome code) ≤ N }
    ensures { line.new ≡ line.old ++ outcome code }
{
    match code {
        codes::DONE => line.say(b"done"),
        codes::BLOCKED => line.say(b"blocked"),
        codes::BROKEN_OFF => line.say(b"broken off"),
        _ => {
            one(line, b"refused by ", code);
            cause(line, code);
        }
    }
}

// A number behind its name, where it is asked for or is not 0.
#[tactic(auto, unfolding(wording::specs::Sentence::detail))]
fn detail<const N: usize>(line: &mut Line<N>, asked: bool, name: &[u8], n: u32)
    requires { length line.old + length (detail asked name.now n) ≤ N }
    ensures { line.new ≡ line.old ++ detail asked name.now n }
{
    if asked | (n != 0) {
        one(line, name, n);
    }
}

// Whether the count is told: of a delete or an abort that was accepted.
#[tactic(auto, unfolding(wording::specs::Sentence::asks_count))]
fn asks_count(call: u32, code: u32) -> bool
    ensures { result ≡ asks_count call code }
{
    ((call == 11) | (call == 12)) & ((code == codes::DONE) | (code == codes::BROKEN_OFF))
}

// Whether badge and message are: of a receive that is done.
#[tactic(auto, unfolding(wording::specs::Sentence::asks_message))]
fn asks_message(call: u32, code: u32) -> bool
    ensures { result ≡ asks_message call code }
{
    (call == 8) & (code == codes::DONE)
}

// Of count, badge and message those that are told; the call by its number.
// stays: (a) `details` and the theorems on sentences have the number.
#[tactic(auto, unfolding(wording::specs::Sentence::details, texts::specs::Text::bytes))]
pub fn details<const N: usize>(line: &mut Line<N>, call: u32, a: Answer)
    requires { length line.old + length (details call a) ≤ N }
    ensures { line.new ≡ line.old ++ details call a }
{
    let received = asks_message(call, a.code);
    detail(line, asks_count(call, a.code), b", count ", a.count);
    detail(line, received, b", badge ", a.badge);
    detail(line, received, b", message ", a.message);
}

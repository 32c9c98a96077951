// A sentence that says which call it is and by whom: its index, who makes it, and who runs then. Which bytes it is
// stands in specs/Numbered.antt.
#![tactic(auto, unfolding(texts::specs::Text::bytes))]

ghost use Rattle.std.specs.Prelude.{◌+◌, ◌≤◌, ◌≡◌, ◌++◌, true, length};
ghost use Rattle.calls.specs.Calls.{in_range};
ghost use Rattle.calls.specs.Answers.{thread_of};
ghost use Rattle.numbered.specs.Numbered.{named, caller, heading, closing, numbered_sentence, numbered_stop};
ghost use Rattle.numbered.specs.Numbered.{numbered_room};

use calls::{Answer, Call};
use texts::Line;

// Room for the line of every call in range.
pub const ROOM: usize = 224;

// A thread by its number, or nobody.
#[tactic(auto, unfolding(crate::specs::Numbered::named, texts::specs::Text::bytes))]
fn named<const N: usize>(line: &mut Line<N>, who: Option<u32>)
    requires { length line.old + length (named (thread_of who)) ≤ N }
    ensures { line.new ≡ line.old ++ named (thread_of who) }
{
    match who {
        None => line.say(b"nobody"),
        Some(t) => wording::one(line, b"thread ", t),
    }
}

// Who makes the call of this number: its own call whoever ran before it, the others the host.
#[tactic(auto, unfolding(crate::specs::Numbered::caller, texts::specs::Text::bytes))]
fn caller<const N: usize>(line: &mut Line<N>, number: u32, ran: Option<u32>)
    requires { length line.old + length (caller number (thread_of ran)) ≤ N }
    ensures { line.new ≡ line.old ++ caller number (thread_of ran) }
{
    if calls::is_own(number) {
        named(line, ran);
    } else {
        line.say(b"host");
    }
}

// The index and who makes the call.
#[tactic(auto, unfolding(crate::specs::Numbered::heading, texts::specs::Text::bytes))]
fn heading<const N: usize>(line: &mut Line<N>, index: u64, number: u32, ran: Option<u32>)
    requires { length line.old + length (heading index number (thread_of ran)) ≤ N }
    ensures { line.new ≡ line.old ++ heading index number (thread_of ran) }
{
    line.number(index);
    line.say(b", ");
    caller(line, number, ran);
    line.say(b": ");
}

// Who runs then, and the end of the line.
#[tactic(auto, unfolding(crate::specs::Numbered::closing, texts::specs::Text::bytes))]
fn close<const N: usize>(line: &mut Line<N>, runs: Option<u32>)
    requires { length line.old + length (closing (thread_of runs)) ≤ N }
    ensures { line.new ≡ line.old ++ closing (thread_of runs) }
{
    line.say(b"; ");
    named(line, runs);
    line.say(b" runs.\n");
}

// The line of a call, whatever its room.
#[tactic(auto, unfolding(crate::specs::Numbered::numbered_sentence))]
fn told<const N: usize>(
    line: &mut Line<N>,
    index: u64,
    ran: Option<u32>,
    call: Call,
    answer: Answer,
    runs: Option<u32>,
)
    requires { length line.old + length (numbered_sentence index (thread_of ran) call answer (thread_of runs)) ≤ N }
    ensures { line.new ≡ line.old ++ numbered_sentence index (thread_of ran) call answer (thread_of runs) }
{
    heading(line, index, calls::number(call), ran);
    sentences::clause(line, call, answer);
    close(line, runs);
}

// The line of a call in range, where every such line has room.
pub fn sentence<const N: usize>(
    line: &mut Line<N>,
    index: u64,
    ran: Option<u32>,
    call: Call,
    answer: Answer,
    runs: Option<u32>,
)
    requires { (length line.old + numbered_room ≤ N) × (in_range call ≡ true) }
    ensures upper_bound { length line.new ≤ length line.old + numbered_room }
    ensures said { line.new ≡ line.old ++ numbered_sentence index (thread_of ran) call answer (thread_of runs) }
{
    told(line, index, ran, call, answer, runs);
}

// The line of a word that the journal does not go on with, whatever its room.
#[tactic(auto, unfolding(crate::specs::Numbered::numbered_stop, texts::specs::Text::bytes))]
fn stopped<const N: usize>(line: &mut Line<N>, index: u64, code: u32, runs: Option<u32>)
    requires { length line.old + length (numbered_stop index code (thread_of runs)) ≤ N }
    ensures { line.new ≡ line.old ++ numbered_stop index code (thread_of runs) }
{
    line.number(index);
    line.say(b": ");
    sentences::stop_clause(line, code);
    close(line, runs);
}

// The same, where every such line has room.
// stays: (d) a call and a stop are told in other words; what they share is `close`.
pub fn stop<const N: usize>(line: &mut Line<N>, index: u64, code: u32, runs: Option<u32>)
    requires { length line.old + numbered_room ≤ N }
    ensures upper_bound { length line.new ≤ length line.old + numbered_room }
    ensures said { line.new ≡ line.old ++ numbered_stop index code (thread_of runs) }
{
    stopped(line, index, code, runs);
}

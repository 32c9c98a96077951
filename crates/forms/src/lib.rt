// The forms in which a call is told, and what stops a journal: texts behind the bytes used of a buffer. Each function
// answers how many bytes are used then.
#![tactic(auto)]

ghost use Rattle.std.specs.Prelude.{◌+◌, ◌≤◌, ◌≡◌, ◌++◌, true, length};
ghost use Rattle.calls.specs.Calls.{in_range};
ghost use Rattle.calls.specs.Answers.{thread_of};
ghost use Rattle.texts.specs.Buffer.{Wrote};
ghost use Rattle.listing.specs.Line.{line_of};
ghost use Rattle.listing.specs.Buffer.{line_room};
ghost use Rattle.forms.specs.Forms.{call_text, stop_text, text_room};

use calls::{Answer, Call};
use listing::Listed;
use texts::Line;

// How a call is told: a line of numbers, a sentence, or one with the call's index, its caller and who runs then.
// stays: (d) `call_text` and `stop_text` have the three forms; closures would be handed down to one match each.
#[derive(Clone, Copy)]
pub enum Form {
    Lines,
    Sentences,
    Numbered,
}

// Room for the text of every call that was read, and of what stops a journal, in any form.
pub const ROOM: usize = numbered::ROOM;

// A line of numbers.
fn list<const N: usize>(
    line: &mut Line<N>,
    index: u64,
    call: u32,
    answer: Answer,
    running: Option<u32>,
)
    requires { length line.old + line_room ≤ N }
    ensures upper_bound { length line.new ≤ length line.old + line_room }
    ensures said { line.new ≡ line.old
        ++ line_of (record { index = index; call = call; answer = answer; running = thread_of running }) }
{
    let listed = Listed {
        index,
        call,
        answer,
        running,
    };
    listing::say(line, listed);
}

// The text of a call: who ran just before it, and who runs after it.
pub fn call(
    form: Form,
    out: &mut [u8],
    used: usize,
    index: u64,
    ran: Option<u32>,
    call: Call,
    answer: Answer,
    runs: Option<u32>,
) -> usize
    requires { (used + text_room ≤ length out.old) × (in_range call ≡ true) }
    ensures upper_bound { result ≤ used + text_room }
    ensures wrote { Wrote out.old used
        (call_text form index (thread_of ran) call answer (thread_of runs)) result out.new }
{
    let mut line: Line<ROOM> = Line::new();
    match form {
        Form::Lines => list(&mut line, index, calls::number(call), answer, runs),
        Form::Sentences => sentences::say(&mut line, call, answer),
        Form::Numbered => numbered::sentence(&mut line, index, ran, call, answer, runs),
    }
    line.put(out, used)
}

// The text of what stops the journal, where this thread runs.
pub fn stop(
    form: Form,
    out: &mut [u8],
    used: usize,
    index: u64,
    code: u32,
    runs: Option<u32>,
) -> usize
    requires { used + text_room ≤ length out.old }
    ensures upper_bound { result ≤ used + text_room }
    ensures wrote { Wrote out.old used (stop_text form index code (thread_of runs)) result
        out.new }
{
    let answer = Answer {
        code,
        count: 0,
        badge: 0,
        message: 0,
    };
    let mut line: Line<ROOM> = Line::new();
    match form {
        Form::Lines => list(&mut line, index, 0, answer, runs),
        Form::Sentences => sentences::say_stop(&mut line, code),
        Form::Numbered => numbered::stop(&mut line, index, code, runs),
    }
    line.put(out, used)
}

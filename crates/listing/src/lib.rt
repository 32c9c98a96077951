// The listing's text: the line of a row, and the header, made into a lent buffer.
// Which bytes they are stands in specs/Line.antt; that different lines are different bytes stands in proofs/Apart.antt.
#![tactic(auto)]

ghost use Rattle.std.specs.Prelude.{◌≡◌, ◌+◌, ◌≤◌, ◌++◌, length};
ghost use Rattle.calls.specs.Answers.{thread_of};
ghost use Rattle.texts.specs.Buffer.{Counts};
ghost use Rattle.listing.specs.Line.{answer_text, runner, line_of, header, row_of};
ghost use Rattle.listing.specs.Buffer.{line_room, line_length, after_line};

use calls::Answer;
use texts::Line;

// What a line lists: index, call number, answer, and who runs.
#[derive(Clone, Copy)]
pub struct Listed {
    pub index: u64,
    pub call: u32,
    pub answer: Answer,
    pub running: Option<u32>,
}

// Room for every line, whatever its numbers; the longest has 87 bytes.
pub const ROOM: usize = 96;

// The four numbers of an answer.
#[tactic(auto, unfolding(crate::specs::Line::answer_text))]
fn fields<const N: usize>(line: &mut Line<N>, a: Answer)
    requires { length line.old + length (answer_text a) ≤ N }
    ensures { line.new ≡ line.old ++ answer_text a }
{
    line.field(a.code as u64);
    line.field(a.count as u64);
    line.field(a.badge as u64);
    line.field(a.message as u64);
}

// Who runs: a thread, or the sign - for nobody.
#[tactic(auto, unfolding(crate::specs::Line::runner))]
fn who<const N: usize>(line: &mut Line<N>, running: Option<u32>)
    requires { length line.old + length (runner (thread_of running)) ≤ N }
    ensures { line.new ≡ line.old ++ runner (thread_of running) }
{
    match running {
        None => line.byte(b'-'),
        Some(t) => line.number(t as u64),
    }
}

// The line of a row, whatever its room.
#[tactic(auto, unfolding(crate::specs::Line::line_of))]
fn row<const N: usize>(line: &mut Line<N>, l: Listed)
    requires { length line.old + length (line_of (row_of l)) ≤ N }
    ensures { line.new ≡ line.old ++ line_of (row_of l) }
{
    line.field(l.index);
    line.field(l.call as u64);
    fields(line, l.answer);
    who(line, l.running);
    line.byte(b'\n');
}

// The line of a row, where every line has room.
pub fn say<const N: usize>(line: &mut Line<N>, l: Listed)
    requires { length line.old + line_room ≤ N }
    ensures upper_bound { length line.new ≤ length line.old + line_room }
    ensures said { line.new ≡ line.old ++ line_of (row_of l) }
{
    row(line, l);
}

// One line at the front of the buffer, if it has room for every line; how many bytes were written.
pub fn line(out: &mut [u8], l: Listed) -> usize
    ensures value { result ≡ line_length (line_of (row_of l)) out.old }
    ensures out_after { out.new ≡ after_line (line_of (row_of l)) out.old }
    ensures counts { Counts result out.new }
{
    if out.len() < ROOM {
        return 0;
    }
    let mut line: Line<ROOM> = Line::new();
    say(&mut line, l);
    line.put(out, 0)
}

// The header at the front of the buffer, if it has room for every line; how many bytes were written.
// stays: (a) 0 where there is no room, as `line_length` has it, for both.
#[tactic(auto, unfolding(texts::specs::Text::bytes))]
pub fn head(out: &mut [u8]) -> usize
    ensures value { result ≡ line_length header out.old }
    ensures out_after { out.new ≡ after_line header out.old }
    ensures counts { Counts result out.new }
{
    if out.len() < ROOM {
        return 0;
    }
    let mut line: Line<ROOM> = Line::new();
    line.say(b"n call code count badge message running\n");
    line.put(out, 0)
}

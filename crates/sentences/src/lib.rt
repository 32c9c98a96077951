// A call and its answer as one English line, made into a lent buffer. Which bytes it is stands in wording,
// specs/Sentence.antt; that no two pairs of call and answer have the same line stands there in proofs/Apart.antt.
#![tactic(auto, unfolding(texts::specs::Text::bytes))]

ghost use Rattle.std.specs.Prelude.{◌≡◌, ◌+◌, ◌≤◌, ◌++◌, true, length, IfOk};
ghost use Rattle.calls.specs.Calls.{in_range};
ghost use Rattle.texts.specs.Text.{bytes};
ghost use Rattle.texts.specs.Buffer.{Counts};
ghost use Rattle.texts.specs.Filed.{Filed};
ghost use Rattle.wording.specs.Sentence.{clause, sentence, stop_clause, stop_line};
ghost use Rattle.wording.specs.Entry.{sentence_room, told, sentence_for, stop_for};

use calls::{Answer, Call, Refusal};
use texts::Line;

// Room for the line of every call in range; the longest has 159 bytes.
pub const ROOM: usize = 160;

// What was asked and what came of it.
pub fn clause<const N: usize>(line: &mut Line<N>, call: Call, answer: Answer)
    requires { length line.old + length (clause call answer) ≤ N }
    ensures { line.new ≡ line.old ++ clause call answer }
{
    requests::request(line, call);
    line.say(b": ");
    outcomes::outcome(line, answer.code);
    outcomes::details(line, calls::number(call), answer);
}

// The end of a line.
fn finish<const N: usize>(line: &mut Line<N>)
    requires { length line.old + 2 ≤ N }
    ensures { line.new ≡ line.old ++ bytes ".\n" }
{
    line.say(b".\n");
}

// The sentence of a call in range.
#[tactic(auto, unfolding(wording::specs::Sentence::sentence, texts::specs::Text::bytes))]
pub fn say<const N: usize>(line: &mut Line<N>, call: Call, answer: Answer)
    requires { (length line.old + sentence_room ≤ N) × (in_range call ≡ true) }
    ensures upper_bound { length line.new ≤ length line.old + sentence_room }
    ensures said { line.new ≡ line.old ++ sentence call answer }
{
    clause(line, call, answer);
    finish(line);
}

// The sentence of a call and its answer at the front of the buffer: its length; Short for a buffer under 160 bytes,
// then Range for a call out of range, and the buffer stays.
pub fn sentence(out: &mut [u8], call: Call, answer: Answer) -> Result<usize, Refusal>
    ensures fact { ◌≡◌ {A = Filed} (told result out.new) (sentence_for call answer out.old) }
    ensures counts { IfOk result (λ used. Counts used out.new) }
{
    if out.len() < ROOM {
        return Err(Refusal::Short);
    }
    if !calls::in_range(call) {
        return Err(Refusal::Range);
    }
    let mut line: Line<ROOM> = Line::new();
    say(&mut line, call, answer);
    Ok(line.put(out, 0))
}

// That the journal does not go on.
pub fn stop_clause<const N: usize>(line: &mut Line<N>, code: u32)
    requires { length line.old + length (stop_clause code) ≤ N }
    ensures { line.new ≡ line.old ++ stop_clause code }
{
    line.say(b"The journal does not go on: ");
    outcomes::outcome(line, code);
}

// The line of a word that the journal does not go on with.
#[tactic(auto, unfolding(wording::specs::Sentence::stop_line, texts::specs::Text::bytes))]
pub fn say_stop<const N: usize>(line: &mut Line<N>, code: u32)
    requires { length line.old + sentence_room ≤ N }
    ensures upper_bound { length line.new ≤ length line.old + sentence_room }
    ensures said { line.new ≡ line.old ++ stop_line code }
{
    stop_clause(line, code);
    finish(line);
}

// That line as an entry, by the reader's number: its length, or Short as above.
// stays: (d) a stop is tried for no range; what the two entries share is `Line`'s.
pub fn stop(out: &mut [u8], code: u32) -> Result<usize, Refusal>
    ensures fact { ◌≡◌ {A = Filed} (told result out.new) (stop_for code out.old) }
    ensures counts { IfOk result (λ used. Counts used out.new) }
{
    if out.len() < ROOM {
        return Err(Refusal::Short);
    }
    let mut line: Line<ROOM> = Line::new();
    say_stop(&mut line, code);
    Ok(line.put(out, 0))
}

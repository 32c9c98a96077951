// What was asked.
#![tactic(auto, unfolding(wording::specs::Sentence::request, texts::specs::Text::bytes))]

ghost use Rattle.std.specs.Prelude.{◌≡◌, ◌+◌, ◌≤◌, ◌++◌, length};
ghost use Rattle.calls.specs.declared.Call.TheVariants.{Send, Delete, Abort, Grant};
ghost use Rattle.texts.specs.Buffer.{Room, Wrote};
ghost use Rattle.wording.specs.Sentence.{request};

use calls::Call;
use texts::Line;
use wording::{one, two};

// Room for the request of every call, also one out of range; the longest has 87 bytes.
const ROOM: usize = 96;

fn send<const N: usize>(line: &mut Line<N>, endpoint: u32, badge: u32, message: u32)
    requires { length line.old + length (request (Send endpoint badge message)) ≤ N }
    ensures { line.new ≡ line.old ++ request (Send endpoint badge message) }
{
    one(line, b"Send message ", message);
    two(line, b" under badge ", badge, b" to endpoint ", endpoint);
}

fn delete<const N: usize>(line: &mut Line<N>, endpoint: u32, allowance: u32)
    requires { length line.old + length (request (Delete endpoint allowance)) ≤ N }
    ensures { line.new ≡ line.old ++ request (Delete endpoint allowance) }
{
    two(
        line,
        b"Delete endpoint ",
        endpoint,
        b" with allowance ",
        allowance,
    );
}

fn abort<const N: usize>(line: &mut Line<N>, endpoint: u32, allowance: u32, badge: u32)
    requires { length line.old + length (request (Abort endpoint allowance badge)) ≤ N }
    ensures { line.new ≡ line.old ++ request (Abort endpoint allowance badge) }
{
    one(line, b"Abort badge ", badge);
    two(
        line,
        b" at endpoint ",
        endpoint,
        b" with allowance ",
        allowance,
    );
}

fn grant<const N: usize>(line: &mut Line<N>, thread: u32, endpoint: u32, rights: u32, badge: u32)
    requires { length line.old + length (request (Grant thread endpoint rights badge)) ≤ N }
    ensures { line.new ≡ line.old ++ request (Grant thread endpoint rights badge) }
{
    two(line, b"Grant thread ", thread, b" rights ", rights);
    two(line, b" at endpoint ", endpoint, b" under badge ", badge);
}

// The request of a call.
pub fn request<const N: usize>(line: &mut Line<N>, call: Call)
    requires { length line.old + length (request call) ≤ N }
    ensures { line.new ≡ line.old ++ request call }
{
    match call {
        Call::CreateThread { thread, priority } => {
            two(
                line,
                b"Create thread ",
                thread,
                b" with priority ",
                priority,
            )
        }
        Call::DestroyThread { thread } => one(line, b"Destroy thread ", thread),
        Call::SetPriority { thread, priority } => {
            two(line, b"Set thread ", thread, b" to priority ", priority)
        }
        Call::CreateEndpoint { endpoint } => one(line, b"Create endpoint ", endpoint),
        Call::Interrupt { line: n } => one(line, b"Interrupt on line ", n),
        Call::Tick => line.say(b"Tick"),
        Call::Send {
            endpoint,
            badge,
            message,
        } => send(line, endpoint, badge, message),
        Call::Receive { endpoint } => one(line, b"Receive at endpoint ", endpoint),
        Call::Yield => line.say(b"Yield"),
        Call::Wait { line: n } => one(line, b"Wait on line ", n),
        Call::Delete {
            endpoint,
            allowance,
        } => delete(line, endpoint, allowance),
        Call::Abort {
            endpoint,
            allowance,
            badge,
        } => abort(line, endpoint, allowance, badge),
        Call::Grant {
            thread,
            endpoint,
            rights,
            badge,
        } => grant(line, thread, endpoint, rights, badge),
    }
}

// The request at a place of the buffer; the next place.
pub fn request_at(out: &mut [u8], at: usize, call: Call) -> usize
    requires { Room out.old at (request call) }
    ensures { Wrote out.old at (request call) result out.new }
{
    let mut line: Line<ROOM> = Line::new();
    request(&mut line, call);
    line.put(out, at)
}

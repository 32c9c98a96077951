// The thirteen calls and their answer. What the calls do, the queue machine, stands in crate machine.
#![tactic(auto)]

ghost use Rattle.std.specs.Prelude.{◌≡◌, ◌&&◌, leb};
ghost use Rattle.calls.specs.Calls.{number_of, is_allowance, in_range};
ghost use Rattle.calls.specs.Numbers.{four, answer_in};
ghost use Rattle.calls.specs.Answers.{code_of, code_in, accepted_as, answer_of, thread_of, seat};

pub mod codes;
pub mod sizes;

// A call, each kind with its own numbers. Any number may stand in any place: those out of range are refused by 19.
#[derive(Clone, Copy, PartialEq, Eq)]
pub enum Call {
    CreateThread {
        thread: u32,
        priority: u32,
    },
    DestroyThread {
        thread: u32,
    },
    SetPriority {
        thread: u32,
        priority: u32,
    },
    CreateEndpoint {
        endpoint: u32,
    },
    Interrupt {
        line: u32,
    },
    Tick,
    Send {
        endpoint: u32,
        badge: u32,
        message: u32,
    },
    Receive {
        endpoint: u32,
    },
    Yield,
    Wait {
        line: u32,
    },
    Delete {
        endpoint: u32,
        allowance: u32,
    },
    Abort {
        endpoint: u32,
        allowance: u32,
        badge: u32,
    },
    Grant {
        thread: u32,
        endpoint: u32,
        rights: u32,
        badge: u32,
    },
}

// What every call is answered with.
#[derive(Clone, Copy, PartialEq, Eq)]
pub struct Answer {
    pub code: u32,
    pub count: u32,
    pub badge: u32,
    pub message: u32,
}

impl From<Answer> for [u32; 4] {
    ghost from_gives = { λ answer numbers. numbers ≡ four answer };

    fn from(answer: Answer) -> [u32; 4] {
        [answer.code, answer.count, answer.badge, answer.message]
    }
}

impl From<[u32; 4]> for Answer {
    ghost from_gives = { λ numbers answer. answer ≡ answer_in numbers };

    fn from([code, count, badge, message]: [u32; 4]) -> Answer {
        Answer {
            code,
            count,
            badge,
            message,
        }
    }
}

// Why a call or an entry is refused: each has its code. The causes are tried in this order, but for the last three.
#[derive(Clone, Copy, PartialEq, Eq)]
pub enum Refusal {
    // The tables are not 4,096 words, the grants not 16,384, or the scratch not 256.
    Length = 16,
    Unsound = 17,
    NoCall = 18,
    Range = 19,
    NobodyRuns = 20,
    ThreadAbsent = 21,
    ThreadPresent = 22,
    EndpointAbsent = 23,
    // Closing included.
    EndpointPresent = 24,
    EndpointClosing = 25,
    BadgeAborted = 26,
    LineTaken = 27,
    // No call's: a buffer without room for every line.
    Short = 28,
    // A right or the granted badge is lacking. It is tried right after 20.
    NoRight = 29,
    // No call's: a journal, a rate or counts beyond what is counted for a bill. It is tried first.
    Limits = 30,
}

impl From<Refusal> for u32 {
    ghost from_gives = { λ why code. code ≡ code_of why };

    fn from(why: Refusal) -> u32 {
        why as u32
    }
}

// What an accepted call comes to.
#[derive(Clone, Copy, PartialEq, Eq)]
pub enum Accepted {
    Done,
    Blocked,
    // A delete or an abort at its end: how many it removed, or looked at.
    Ended(u32),
    // The same where its allowance is used up, with work left.
    BrokenOff(u32),
    // A receive that is done.
    Received { badge: u32, message: u32 },
}

pub type Outcome = Result<Accepted, Refusal>;

impl From<Outcome> for Answer {
    ghost from_gives = { λ outcome answer. answer ≡ answer_of outcome };

    fn from(outcome: Outcome) -> Answer {
        let (code, count, badge, message) = match outcome {
            Ok(Accepted::Done) => (codes::DONE, 0, 0, 0),
            Ok(Accepted::Blocked) => (codes::BLOCKED, 0, 0, 0),
            Ok(Accepted::Ended(count)) => (codes::DONE, count, 0, 0),
            Ok(Accepted::BrokenOff(count)) => (codes::BROKEN_OFF, count, 0, 0),
            Ok(Accepted::Received { badge, message }) => (codes::DONE, 0, badge, message),
            Err(why) => (why.into(), 0, 0, 0),
        };
        Answer {
            code,
            count,
            badge,
            message,
        }
    }
}

// What an entry that is no call is answered with: 0, or why it is refused.
pub fn code(outcome: Result<(), Refusal>) -> u32
    ensures { result ≡ code_in outcome }
{
    match outcome {
        Ok(()) => codes::DONE,
        Err(why) => why.into(),
    }
}

// Who runs as one number, 256 for nobody.
pub fn seat(who: Option<u32>) -> u32
    ensures { result ≡ seat (thread_of who) }
{
    who.unwrap_or(codes::NO_SEAT)
}

// The call's number, 1 to 13.
pub fn number(c: Call) -> u32
    ensures { result ≡ number_of c }
{
    match c {
        Call::CreateThread { .. } => 1,
        Call::DestroyThread { .. } => 2,
        Call::SetPriority { .. } => 3,
        Call::CreateEndpoint { .. } => 4,
        Call::Interrupt { .. } => 5,
        Call::Tick => 6,
        Call::Send { .. } => 7,
        Call::Receive { .. } => 8,
        Call::Yield => 9,
        Call::Wait { .. } => 10,
        Call::Delete { .. } => 11,
        Call::Abort { .. } => 12,
        Call::Grant { .. } => 13,
    }
}

// Whether the call of this number is one that the running thread makes; the others are the host's.
pub fn is_own(number: u32) -> bool
    ensures { result ≡ (leb 7 number && leb number 12) }
{
    7 <= number && number <= 12
}

fn is_allowance(a: u32) -> bool
    ensures { result ≡ is_allowance a }
{
    1 <= a && a <= 65535
}

// Whether every number of the call is in range; if not, it is refused by 19.
pub fn in_range(c: Call) -> bool
    ensures { result ≡ in_range c }
{
    match c {
        Call::CreateThread { thread, priority } => thread <= codes::LAST_THREAD
            && priority <= codes::LAST_PRIORITY,
        Call::DestroyThread { thread } => thread <= codes::LAST_THREAD,
        Call::SetPriority { thread, priority } => thread <= codes::LAST_THREAD
            && priority <= codes::LAST_PRIORITY,
        Call::CreateEndpoint { endpoint } => endpoint <= codes::LAST_ENDPOINT,
        Call::Interrupt { line } => line <= codes::LAST_LINE,
        Call::Tick => true,
        Call::Send {
            endpoint,
            badge,
            message,
        } => endpoint <= codes::LAST_ENDPOINT && badge < codes::BADGES && message < codes::BADGES,
        Call::Receive { endpoint } => endpoint <= codes::LAST_ENDPOINT,
        Call::Yield => true,
        Call::Wait { line } => line <= codes::LAST_LINE,
        Call::Delete {
            endpoint,
            allowance,
        } => endpoint <= codes::LAST_ENDPOINT && is_allowance(allowance),
        Call::Abort {
            endpoint,
            allowance,
            badge,
        } => endpoint <= codes::LAST_ENDPOINT && is_allowance(allowance) && badge < codes::BADGES,
        Call::Grant {
            thread,
            endpoint,
            rights,
            badge,
        } => thread <= codes::LAST_THREAD
            && endpoint <= codes::LAST_ENDPOINT
            && rights <= 15
            && badge < codes::BADGES,
    }
}

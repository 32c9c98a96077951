// Reads and writes the journal's edge cases and prints what comes back; stdout was worked out from document 01
// and T-04.
#![tactic(auto)]

ghost use Rattle.std.specs.Prelude.{◌<◌};

use calls::Call;
use calls::codes::BADGES;
use journal::types::Read;

// Every word stands where a call may be looked for, so each is read as one.
const JOURNAL: [u32; 68] = [
    0x1100_00FF, // 0: priority 255
    0x11FF_0100, // priority 256
    0x11FF_FFFF,
    0x12FF_0000,
    0x12FF_0001, // an unused argument
    0x1303_00FF, // 5
    0x1303_0100,
    0x143F_0000, // endpoint 63
    0x1440_0000, // endpoint 64
    0x1440_0001, // 18 before 19
    0x151F_0000, // 10: line 31
    0x1520_0000, // line 32
    0x1600_0000,
    0x1601_0000, // an unused subject
    0x1600_0001,
    0x173F_0000, // 15: badge 0, the largest message
    0x2000_0000,
    0x3FFF_FFFF,
    0x1700_0000, // the message word before the badge word
    0x3000_0000,
    0x2000_0000, // 20
    0x1740_0000, // a badge word for the message word: 18 before 19
    0x2FFF_FFFF,
    0x2000_0001,
    0x1740_0000, // endpoint 64, the words right
    0x2FFF_FFFF, // 25
    0x3000_0001,
    0x183F_0000,
    0x18FF_0000,
    0x1900_0000,
    0x1900_0001, // 30
    0x1A1F_0000,
    0x1A20_0000,
    0x1B3F_0000, // allowance 0
    0x1B3F_0001, // allowance 1
    0x1B3F_FFFF, // 35: allowance 65,535
    0x1B40_0001,
    0x1C3F_0001, // the largest badge
    0x2FFF_FFFF,
    0x1C00_FFFF, // badge 0
    0x2000_0000, // 40
    0x1C00_0000, // allowance 0
    0x2000_0000,
    0x1C00_0000, // a message word for the badge word: 18 before 19
    0x3000_0000,
    0x1C40_0001, // 45
    0x2000_000A,
    0x1000_0000, // no call has number 0
    0x1E00_0000, // nor 14
    0x0000_0000,
    0x4100_0000, // 50: other top bits
    0xF100_0000,
    0x1DFF_0F3F, // every number of a grant at its largest
    0x2FFF_FFFF,
    0x1D00_0000, // rights 0 with a badge
    0x2000_0007, // 55
    0x1D03_0140, // bit 6 of the argument
    0x2000_0007,
    0x1D03_0180, // bit 7
    0x2000_0007,
    0x1D03_1100, // 60: bit 12
    0x2000_0007,
    0x1D03_8100, // bit 15
    0x2000_0007,
    0x1D03_0100, // a message word for the badge word
    0x3000_0007, // 65
    0x1700_0000, // the message word is missing
    0x2000_0007,
];

// A call on the last word; then three whose next word is missing, the first two with a number out of range besides.
const LAST: [u32; 1] = [0x1900_0000];

const SEND_CUT: [u32; 1] = [0x1740_0000];

const ABORT_CUT: [u32; 1] = [0x1C40_0000];

const GRANT_CUT: [u32; 1] = [0x1D03_0100];

// The numbers that a call carries, in order, with zeros for those that it has not.
fn numbers(call: Call) -> [u32; 4] {
    match call {
        Call::CreateThread { thread, priority } => [thread, priority, 0, 0],
        Call::DestroyThread { thread } => [thread, 0, 0, 0],
        Call::SetPriority { thread, priority } => [thread, priority, 0, 0],
        Call::CreateEndpoint { endpoint } => [endpoint, 0, 0, 0],
        Call::Interrupt { line } => [line, 0, 0, 0],
        Call::Tick => [0; 4],
        Call::Send {
            endpoint,
            badge,
            message,
        } => [endpoint, badge, message, 0],
        Call::Receive { endpoint } => [endpoint, 0, 0, 0],
        Call::Yield => [0; 4],
        Call::Wait { line } => [line, 0, 0, 0],
        Call::Delete {
            endpoint,
            allowance,
        } => [endpoint, allowance, 0, 0],
        Call::Abort {
            endpoint,
            allowance,
            badge,
        } => [endpoint, allowance, badge, 0],
        Call::Grant {
            thread,
            endpoint,
            rights,
            badge,
        } => [thread, endpoint, rights, badge],
    }
}

fn show_numbers(rt: &impl Print, numbers: [u32; 4]) {
    for n in numbers {
        let _ = print!(rt; " {n}");
    }
}

// The code, for a call its number and its numbers, and the place to go on from.
fn show(rt: &impl Print, reading: Read) {
    let _ = match reading {
        Read::Found { call, next } => {
            let _ = print!(rt; " 0 {}", calls::number(call));
            show_numbers(rt, numbers(call));
            print!(rt; " {next}")
        }
        Read::Refused { code, at } => print!(rt; " {code} {at}"),
        Read::Ended => print!(rt; " ended"),
    };
}

// A line for what reads at a place.
fn show_at(rt: &impl Print, journal: &[u32], at: usize) {
    let _ = print!(rt; "{at}:");
    show(rt, parsing::read(journal, at));
    let _ = println!(rt);
}

// What reads at each word, and at the two places past the last.
fn show_all(rt: &impl Print, journal: &[u32]) {
    for at in 0..=journal.len() {
        show_at(rt, journal, at);
    }
    show_at(rt, journal, journal.len() + 1);
}

// How many words the call takes that begins so, or the refusal.
fn taken(top: u32, argument: u32) -> usize
    requires { (top < 256) × (argument < 2) }
{
    let journal = [top * 0x0100_0000 + argument, 0x2000_0000, 0x3000_0000];
    match parsing::read(&journal, 0) {
        Read::Found { call: _, next } => next,
        Read::Refused { code, at: _ } => code as usize,
        Read::Ended => 0,
    }
}

fn show_top(rt: &impl Print, top: u32, argument: u32)
    requires { (top < 256) × (argument < 2) }
{
    let end = if top % 16 == 15 { '\n' } else { ' ' };
    let _ = print!(rt; "{}{end}", taken(top, argument));
}

// All top bytes, a row for each value of the top four bits.
fn show_tops(rt: &impl Print, argument: u32)
    requires { argument < 2 }
{
    for top in 0..256 {
        show_top(rt, top, argument);
    }
}

// A line: code, count and the three words.
fn show_words(rt: &impl Print, code: u32, count: usize, words: [u32; 3]) {
    let _ = print!(rt; "{code} {count}");
    for w in words {
        let _ = print!(rt; " {w:08x}");
    }
    let _ = println!(rt);
}

// What a call is written as.
fn show_written(rt: &impl Print, call: Call) {
    match encoding::write(call) {
        Ok(written) => {
            let words = written.words;
            show_words(rt, 0, written.count, words);
        }
        Err(why) => show_words(rt, why.into(), 0, [0; 3]),
    }
}

fn show_each(rt: &impl Print, calls: &[Call]) {
    for call in calls {
        show_written(rt, *call);
    }
}

fn write_threads(rt: &impl Print) {
    let create = |thread, priority| Call::CreateThread { thread, priority };
    let set = |thread, priority| Call::SetPriority { thread, priority };
    show_each(
        rt,
        &[
            create(255, 255),
            create(255, 256),
            create(256, 0),
            Call::DestroyThread { thread: 255 },
            Call::DestroyThread { thread: 256 },
            set(255, 255),
            set(0, 256),
            Call::Tick,
        ],
    );
}

fn write_lines(rt: &impl Print) {
    show_each(
        rt,
        &[
            Call::CreateEndpoint { endpoint: 63 },
            Call::CreateEndpoint { endpoint: 64 },
            Call::Interrupt { line: 31 },
            Call::Interrupt { line: 32 },
            Call::Receive { endpoint: 63 },
            Call::Receive { endpoint: 64 },
            Call::Wait { line: 31 },
            Call::Wait { line: 32 },
        ],
    );
}

// Badge and message 0, 2^28 - 1 and 2^28.
fn write_sends(rt: &impl Print) {
    let send = |endpoint, badge, message| Call::Send {
        endpoint,
        badge,
        message,
    };
    show_each(
        rt,
        &[
            Call::Yield,
            send(63, 0, 0),
            send(63, BADGES - 1, BADGES - 1),
            send(63, BADGES, 0),
            send(63, 0, BADGES),
            send(64, 0, 0),
        ],
    );
}

// Allowance 0, 1, 65,535 and 65,536.
fn write_deletes(rt: &impl Print) {
    let delete = |allowance| Call::Delete {
        endpoint: 63,
        allowance,
    };
    show_each(rt, &[delete(0), delete(1), delete(65535), delete(65536)]);
}

fn write_aborts(rt: &impl Print) {
    let abort = |endpoint, allowance, badge| Call::Abort {
        endpoint,
        allowance,
        badge,
    };
    show_each(
        rt,
        &[
            abort(63, 1, 0),
            abort(63, 65535, BADGES - 1),
            abort(63, 1, BADGES),
            abort(63, 0, 0),
            abort(64, 1, 0),
        ],
    );
}

// A badge with rights 0; then each number too large by one.
fn write_grants(rt: &impl Print) {
    let grant = |thread, endpoint, rights, badge| Call::Grant {
        thread,
        endpoint,
        rights,
        badge,
    };
    show_each(
        rt,
        &[
            grant(255, 63, 15, BADGES - 1),
            grant(0, 0, 0, 7),
            grant(256, 0, 1, 0),
            grant(0, 64, 1, 0),
            grant(0, 0, 16, 0),
            grant(0, 0, 0, BADGES),
        ],
    );
}

fn show_writing(rt: &impl Print) {
    write_threads(rt);
    write_lines(rt);
    write_sends(rt);
    write_deletes(rt);
    write_aborts(rt);
    write_grants(rt);
}

fn main(rt: HostRuntime) {
    show_all(&rt, &JOURNAL);
    show_all(&rt, &LAST);
    show_all(&rt, &SEND_CUT);
    show_all(&rt, &ABORT_CUT);
    show_all(&rt, &GRANT_CUT);
    show_tops(&rt, 0);
    show_tops(&rt, 1);
    show_writing(&rt);
}

// Lines of the listing, printed: the header, small and large numbers, a running thread and nobody.
// The bytes that they must be stand in stdout.
#![tactic(auto)]

use calls::Answer;
use listing::Listed;

fn listed(index: u64, call: u32, numbers: [u32; 4], running: Option<u32>) -> Listed {
    Listed {
        index,
        call,
        answer: Answer::from(numbers),
        running,
    }
}

fn show_head(rt: &impl Print) {
    let mut buffer = [0u8; listing::ROOM];
    let n = listing::head(&mut buffer);
    let _ = rt.write_all(&buffer[..n]);
}

fn show(rt: &impl Print, l: Listed) {
    let mut buffer = [0u8; listing::ROOM];
    let n = listing::line(&mut buffer, l);
    let _ = rt.write_all(&buffer[..n]);
}

// A buffer of 95 bytes gets nothing.
fn no_room() {
    let mut buffer = [0u8; 95];
    let n = listing::line(&mut buffer, listed(1, 2, [3, 4, 5, 6], Some(7)));
    check::expect(n == 0);
}

fn main(rt: HostRuntime) {
    no_room();
    show_head(&rt);
    let last = u32::MAX;
    let rows = [
        (0, 1, [0, 0, 0, 0], Some(1)),
        (8, 8, [0, 0, 8, 200], Some(3)),
        (9, 10, [11, 99, 100, 101], Some(0)),
        (10, 9, [1, 2, 3, 4], Some(255)),
        (100, 0, [18, 0, 0, 0], None),
        (4294967295, 12, [26, last, 268435455, 268435456], None),
        (u64::MAX, last, [last; 4], Some(last)),
    ];
    for (index, call, numbers, running) in rows {
        show(&rt, listed(index, call, numbers, running));
    }
}

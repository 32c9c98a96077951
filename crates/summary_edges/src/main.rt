// Marks the levels at the edges of the words in several orders, and writes after each mark the highest occupied level,
// the top word and the marked level's word.
#![tactic(auto)]

ghost use Rattle.summary.specs.Levels.{IsSummary};

use summary::Summary;

// The marks, in order: 1 for occupied or 0 for empty, and the level in two hexadecimal digits.
const MARKS: [u32; 28] = [
    0x100, 0x11f, 0x120, 0x1ff, 0x1ff, 0x0ff, 0x0ff, 0x020, 0x01f, 0x000, 0x1ff, 0x120, 0x11f,
    0x100, 0x000, 0x01f, 0x020, 0x0ff, 0x11f, 0x100, 0x01f, 0x120, 0x000, 0x1ff, 0x020, 0x100,
    0x0ff, 0x000,
];

fn write_level(rt: &impl Print, level: Option<u32>) {
    let _ = match level {
        Some(p) => print!(rt; "{p}"),
        None => print!(rt; "none"),
    };
}

// One line: the highest level, the top word, and the word of level p in hexadecimal.
fn write_summary(rt: &impl Print, s: Summary, p: u32)
    requires { IsSummary s }
{
    let top = s.top;
    let word = s.words[(p / 32 % 8) as usize];
    let _ = print!(rt; " highest ");
    write_level(rt, s.highest());
    let _ = println!(rt; " top {top} word {word:08x}");
}

fn write_mark(rt: &impl Print, occupied: bool, p: u32) {
    let sign = if occupied { '+' } else { '-' };
    let _ = print!(rt; "{sign}{p}");
}

// Makes one mark of the list.
fn marked(s: Summary, mark: u32) -> Summary
    requires { IsSummary s }
    ensures { IsSummary result }
{
    let p = mark % 256;
    if mark >= 256 {
        return s.occupied(p);
    }
    s.emptied(p)
}

fn main(rt: HostRuntime) {
    let mut s = Summary::new();
    for mark in MARKS {
        s = marked(s, mark);
        write_mark(&rt, mark >= 256, mark % 256);
        write_summary(&rt, s, mark % 256);
    }
}

// Every word of a table changed in turn, and the check of each changed memory.
ghost use Rattle.std.specs.Prelude.{◌≡◌, ◌<◌, length};
ghost use Rattle.layout.specs.Addresses.{table_words};

use crate::{memory, out};
use calls::Refusal;
use lent_tables::{SCRATCH_WORDS, TABLE_WORDS};

// What came of the changes of one kind. Wrong are words that the check changed, words that it left in the scratch, and
// answers that it does not give.
#[derive(Clone, Copy, Default)]
pub struct Tally {
    same: usize,
    sound: usize,
    unsound: usize,
    wrong: usize,
}

// stays: (d) each change has a name to print beside what it does.
#[derive(Clone, Copy)]
pub enum Change {
    Zero,
    More,
    Ones,
}

fn changed(change: Change, word: u32) -> u32 {
    match change {
        Change::Zero => 0,
        Change::More => word.wrapping_add(1),
        Change::Ones => 0xFFFF_FFFF,
    }
}

fn more(n: usize) -> usize {
    n.wrapping_add(1)
}

fn answered(c: Tally, answer: Result<(), Refusal>) -> Tally {
    match answer {
        Ok(()) => Tally {
            sound: more(c.sound),
            ..c
        },
        Err(Refusal::Unsound) => Tally {
            unsound: more(c.unsound),
            ..c
        },
        Err(_) => Tally {
            wrong: more(c.wrong),
            ..c
        },
    }
}

// The check of one changed memory, whose word is put back.
fn turn(
    c: Tally,
    tables: &mut [u32],
    kept: &[u32],
    scratch: &mut [u32],
    at: usize,
    word: u32,
) -> Tally
    requires { (length tables.old ≡ length kept.now) × (at < length kept.now) }
{
    memory::fill(scratch);
    tables[at] = word;
    let answer = memory::check(tables, scratch);
    let moved = usize::from(tables[at] != word);
    tables[at] = kept[at];
    let others = memory::differing(tables, kept);
    let left = memory::nonzero(scratch);
    let wrong = c
        .wrong
        .wrapping_add(moved)
        .wrapping_add(others)
        .wrapping_add(left);
    answered(Tally { wrong, ..c }, answer)
}

// One word, where the change makes another of it.
fn step(
    c: Tally,
    change: Change,
    tables: &mut [u32],
    kept: &[u32],
    scratch: &mut [u32],
    at: usize,
) -> Tally
    requires { (length tables.old ≡ length kept.now) × (at < length kept.now) }
{
    let word = changed(change, kept[at]);
    if word == kept[at] {
        return Tally {
            same: more(c.same),
            ..c
        };
    }
    turn(c, tables, kept, scratch, at, word)
}

fn sweep(change: Change, tables: &mut [u32], kept: &[u32], scratch: &mut [u32]) -> Tally
    requires { length tables.old ≡ length kept.now }
{
    let mut c = Tally::default();
    for at in 0..kept.len() {
        c = step(c, change, tables, kept, scratch, at);
    }
    c
}

fn show_name(rt: &impl Print, change: Change) {
    match change {
        Change::Zero => out::text(rt, b"zero"),
        Change::More => out::text(rt, b"more"),
        Change::Ones => out::text(rt, b"ones"),
    }
}

fn show(rt: &impl Print, change: Change, c: Tally) {
    show_name(rt, change);
    out::next(rt, b"same", c.same as u64);
    out::next(rt, b"sound", c.sound as u64);
    out::next(rt, b"unsound", c.unsound as u64);
    out::next(rt, b"wrong", c.wrong as u64);
    out::line(rt);
}

fn show_sweep(
    rt: &impl Print,
    change: Change,
    tables: &mut [u32],
    kept: &[u32],
    scratch: &mut [u32],
)
    requires { length tables.old ≡ length kept.now }
{
    show(rt, change, sweep(change, tables, kept, scratch));
}

// The table as it is, with the scratch full of junk.
fn show_whole(rt: &impl Print, number: u64, tables: &[u32], scratch: &mut [u32]) {
    memory::fill(scratch);
    out::value(rt, b"table", number);
    out::next(rt, b"sum", memory::sum(tables));
    out::next(
        rt,
        b"answer",
        u64::from(calls::code(memory::check(tables, scratch))),
    );
    out::next(rt, b"wrong", memory::nonzero(scratch) as u64);
    out::line(rt);
}

// A table's lines: the whole, and each kind of change.
pub fn table(rt: &impl Print, number: u64, kept: &[u32])
    requires { length kept.now ≡ table_words }
{
    let mut tables = [0u32; TABLE_WORDS];
    let mut scratch = [0u32; SCRATCH_WORDS];
    tables.copy_from_slice(kept);
    show_whole(rt, number, &tables, &mut scratch);
    show_sweep(rt, Change::Zero, &mut tables, kept, &mut scratch);
    show_sweep(rt, Change::More, &mut tables, kept, &mut scratch);
    show_sweep(rt, Change::Ones, &mut tables, kept, &mut scratch);
}

// The lines of a bill, made into a lent buffer. Which bytes they are stands in billing's specs/Bills.antt.
#![tactic(auto)]

ghost use Rattle.std.specs.Prelude.{◌+◌, ◌≤◌, ◌<◌, ◌≡◌, ◌++◌, [], ◌∷◌, length, take};
ghost use Rattle.texts.specs.Buffer.{Room, Wrote};
ghost use Rattle.billing.specs.Cents.{cents};
ghost use Rattle.billing.specs.Ticks.{most_words, most_rate};
ghost use Rattle.billing.specs.Bills.{lines_from, bill_of, alone};
ghost use Rattle.bills.specs.Lines.{entry_of, Few, bill_room};

use calls::sizes::THREADS;
use texts::Line;

// Room for every bill; the longest has 4,363 bytes.
pub const ROOM: usize = 4608;

// Room for a number of 32 bits and a newline.
const NUMBER: usize = 11;

// What ticks cost, in whole cents.
pub fn cents(rate: u32, ticks: u32) -> u32
    requires { (rate ≤ most_rate) × (ticks ≤ most_words) }
    ensures { result ≡ cents rate ticks }
{
    (ticks * rate + 500) / 1000
}

// A number alone on a line.
fn say_alone<const N: usize>(bill: &mut Line<N>, n: u32)
    requires { length bill.old + length (alone n) ≤ N }
    ensures { bill.new ≡ bill.old ++ alone n }
{
    bill.number(n as u64);
    bill.byte(b'\n');
}

// The same at a place of the buffer; the next place.
pub fn alone(out: &mut [u8], at: usize, n: u32) -> usize
    requires { Room out.old at (alone n) }
    ensures { Wrote out.old at (alone n) result out.new }
{
    let mut line: Line<NUMBER> = Line::new();
    say_alone(&mut line, n);
    line.put(out, at)
}

// A thread's line, if it has ticks.
#[tactic(auto, unfolding(crate::specs::Lines::entry_of))]
fn entry<const N: usize>(bill: &mut Line<N>, rate: u32, thread: usize, ticks: u32)
    requires { (rate ≤ most_rate) × (ticks ≤ most_words) × (length bill.old + length (entry_of rate thread ticks) ≤ N) }
    ensures { bill.new ≡ bill.old ++ entry_of rate thread ticks }
{
    if ticks == 0 {
        return;
    }
    bill.field(thread as u64);
    bill.field(ticks as u64);
    say_alone(bill, cents(rate, ticks));
}

// The threads' lines.
fn lines<const N: usize>(bill: &mut Line<N>, rate: u32, counts: &[u32])
    requires { (rate ≤ most_rate) × Few counts.now × (length bill.old + bill_room ≤ N) }
    ensures { bill.new ≡ bill.old ++ lines_from rate 0 (take 256 counts.now) }
{
    for t in 0..THREADS {
        entry(bill, rate, t, counts[t]);
    }
}

// The whole bill at the front of the buffer; how many bytes.
pub fn write(rate: u32, counts: &[u32], out: &mut [u8]) -> usize
    requires { (rate ≤ most_rate) × Few counts.now × (bill_room ≤ length out.old) }
    ensures { Wrote out.old 0 (bill_of rate counts.now) result out.new }
{
    let mut bill: Line<ROOM> = Line::new();
    lines(&mut bill, rate, counts);
    bill.say(b"idle ");
    say_alone(&mut bill, counts[THREADS]);
    bill.put(out, 0)
}

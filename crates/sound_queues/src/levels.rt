// The queues of the levels: each is walked once, by its next links, and its threads are met. A walk ends after as
// many threads as there are, whatever the links say.
ghost use Rattle.std.specs.Prelude.{◌≡◌, ◌≤◌, length};
ghost use Rattle.layout.specs.Addresses.{table_words, scratch_words};
ghost use Rattle.layout.specs.Tests.{all};
ghost use Rattle.soundness.specs.Checks.{level_test, met, met_below};
ghost use Rattle.sound_queues.specs.Steps.{ready_behind};
ghost use Rattle.sound_queues.specs.Met.{met_in, Follows, FollowsAll};

use calls::sizes::{LEVELS, THREADS};
use layout::{Field, Link, Scratch, Slot, Tables, wide};

// Thread t, met behind link x in the queue of level p: it is linked back, and ready at p.
fn ready(tables: &Tables, p: usize, x: usize, t: usize) -> bool
    requires { t ≤ 255 }
    ensures { result ≡ ready_behind tables.now p x t }
{
    let prev = words::wide(tables, Link::Prev(t));
    let place = words::thread(tables, Field::Place, t);
    let priority = words::thread(tables, Field::Priority, t);
    let running = words::wide(tables, Slot::Running);
    (prev == x) & ((place == wide::ABLE) & (priority == p) & (running != t + wide::LINK))
}

fn level(tables: &Tables, scratch: &mut Scratch, p: usize) -> bool
    requires { p ≤ 255 }
    ensures { Follows scratch.old scratch.new (met tables.now p)
        (level_test tables.now p) result }
{
    let mut x: usize = wide::NOBODY;
    let mut y = words::wide(tables, Link::Head(p));
    for _ in 0..THREADS + 1 {
        if y == wide::NOBODY {
            return words::wide(tables, Link::Tail(p)) == x;
        }
        if wide::LAST_LINK < y {
            return false;
        }
        let t = y - wide::LINK;
        if !ready(tables, p, x, t) {
            return false;
        }
        crate::met::meet(scratch, t);
        x = y;
        y = words::wide(tables, Link::Next(t));
    }
    false
}

pub fn levels(tables: &Tables, scratch: &mut Scratch) -> bool
    requires { scratch.old ≡ met_in (met_below 0 tables.now) }
    ensures { FollowsAll scratch.new (met_below 256 tables.now)
        (all 256 (level_test tables.now)) result }
{
    for p in 0..LEVELS {
        if !level(tables, scratch, p) {
            return false;
        }
    }
    true
}

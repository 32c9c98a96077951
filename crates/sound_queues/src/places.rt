// Each thread stands where its place says: it was met in a queue exactly if it belongs in one, and whoever was not met
// has links 0.
ghost use Rattle.std.specs.Prelude.{◌≡◌, ◌≤◌, length};
ghost use Rattle.layout.specs.Addresses.{table_words, scratch_words};
ghost use Rattle.layout.specs.Tests.{all};
ghost use Rattle.soundness.specs.Checks.{placed_test, met_below};
ghost use Rattle.sound_queues.specs.Met.{met_in};

use calls::sizes::THREADS;
use layout::{Field, Link, Scratch, Slot, Tables, wide};

fn place(tables: &Tables, scratch: &Scratch, t: usize) -> bool
    requires { (scratch.now ≡ met_in (met_below 320 tables.now)) × (t ≤ 255) }
    ensures { result ≡ placed_test tables.now t }
{
    let met = crate::met::has_met(scratch, t);
    let place = words::thread(tables, Field::Place, t);
    let running = words::wide(tables, Slot::Running);
    let queued = ((place == wide::ABLE) & (running != t + wide::LINK))
        | ((wide::SENDING <= place) & (place < wide::WAITING));
    let bare = (words::wide(tables, Link::Next(t)) == wide::NOBODY)
        & (words::wide(tables, Link::Prev(t)) == wide::NOBODY);
    (met == queued) & (met | bare)
}

pub fn places(tables: &Tables, scratch: &Scratch) -> bool
    requires { scratch.now ≡ met_in (met_below 320 tables.now) }
    ensures { result ≡ all 256 (placed_test tables.now) }
{
    (0..THREADS).all(|t| place(tables, scratch, t))
}

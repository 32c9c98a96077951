// The interrupt lines and the unused words.
ghost use Rattle.std.specs.Prelude.{◌≡◌, ◌≤◌, length};
ghost use Rattle.layout.specs.Addresses.{table_words};
ghost use Rattle.layout.specs.Tests.{all};
ghost use Rattle.soundness.specs.Checks.{line_test, unused_test};

use calls::sizes::LINES;
use layout::{Field, Slot, Tables, UNUSED_WORDS, wide};

// A line's waiter waits on it.
fn line(tables: &Tables, l: usize) -> bool
    requires { l ≤ 31 }
    ensures { result ≡ line_test tables.now l }
{
    let line = words::wide(tables, Slot::Line(l));
    if line < wide::AWAITED {
        return true;
    }
    if wide::LAST_AWAITED < line {
        return false;
    }
    words::thread(tables, Field::Place, line - wide::AWAITED) == wide::WAITING + l
}

pub fn lines(tables: &Tables) -> bool
    ensures { result ≡ all 32 (line_test tables.now) }
{
    (0..LINES).all(|l| line(tables, l))
}

// The unused words are 0.
pub fn unused(tables: &Tables) -> bool
    ensures { result ≡ all 534 (unused_test tables.now) }
{
    (0..UNUSED_WORDS).all(|i| words::wide(tables, Slot::Unused(i)) == 0)
}

// What the levels' queues ask of the summary and of the running thread: the summary's words are those of the occupied
// levels, and nobody ready is above the running thread.
ghost use Rattle.std.specs.Prelude.{◌≡◌, not, ◌||◌, ◌≤◌, eqb, leb, length};
ghost use Rattle.machine.specs.Lists.{pick};
ghost use Rattle.summary.specs.Levels.{word_of};
ghost use Rattle.layout.specs.Addresses.{table_words};
ghost use Rattle.layout.specs.Tests.{all};
ghost use Rattle.soundness.specs.Checks.{occupied_at, summary_test, running_test};

use layout::{Field, Link, Slot, Tables, wide};
use summary::{LEVELS_IN_WORD, WORDS};

// What a bit adds: nothing where the word it stands for is 0.
fn share(word: usize, bit: usize) -> usize
    ensures { result ≡ pick (not (eqb word 0)) bit 0 }
{
    if word == 0 {
        return 0;
    }
    bit
}

// Word w of the summary, as the queues have it.
fn word(tables: &Tables, w: usize) -> usize
    requires { w ≤ 7 }
    ensures { result ≡ word_of (occupied_at tables.now) w }
{
    let mut bit: usize = 1;
    let mut sum: usize = 0;
    for k in 0..LEVELS_IN_WORD {
        let p = LEVELS_IN_WORD * w + k;
        sum += share(words::wide(tables, Link::Head(p)), bit);
        bit += bit;
    }
    sum
}

pub fn summary(tables: &Tables) -> bool
    ensures { result ≡ summary_test tables.now }
{
    let mut bit: usize = 1;
    let mut sum: usize = 0;
    for w in 0..WORDS {
        let word = word(tables, w);
        if words::wide(tables, Slot::Summary(w)) != word {
            return false;
        }
        sum += share(word, bit);
        bit += bit;
    }
    words::wide(tables, Slot::Top) == sum
}

// No level above p is occupied.
fn above(tables: &Tables, p: usize) -> bool
    ensures { result ≡ all 256 (λ i. leb i p || not (occupied_at tables.now i)) }
{
    (p..wide::LAST_PRIORITY).all(|i| words::wide(tables, Link::Head(i + 1)) == wide::NOBODY)
}

pub fn running(tables: &Tables) -> bool
    ensures { result ≡ running_test tables.now }
{
    let running = words::wide(tables, Slot::Running);
    if running == wide::NOBODY {
        return (words::wide(tables, Link::Head(0)) == wide::NOBODY) & above(tables, 0);
    }
    if wide::LAST_LINK < running {
        return false;
    }
    let t = running - wide::LINK;
    (words::thread(tables, Field::Place, t) == wide::ABLE)
        & above(tables, words::thread(tables, Field::Priority, t))
}

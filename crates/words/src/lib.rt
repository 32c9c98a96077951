// The lent words by name: where each stands, and the functions that read and write one. The arithmetic of the layout
// stands here and in specs/Addresses of crate layout, and nowhere else.
#![tactic(auto)]

ghost use Rattle.std.specs.Prelude.{◌≡◌, ℕ, ◌≤◌, ◌<◌, length, set, replicate};
ghost use Rattle.layout.specs.declared.Slot.{Slot};
ghost use Rattle.layout.specs.Addresses.{column, offset, at, link_at, word, ValidSlot, ValidLink, table_words};
ghost use Rattle.words.specs.Access.{Address, Pair, beside_at, ValidBeside};

use layout::{Field, Link, Part, Slot, Tables, wide};

// The name of a lent word. What reads and writes the words below knows of a name its address alone.
pub trait Name: Copy {
    ghost at: { Self → ℕ };

    ghost valid: { Self → Type 0 };

    fn address(self) -> usize
        requires { valid self }
        ensures { Address result (at self) };
}

// The link from link x of queue q to what comes after it, and to what comes before it. Link 0 is the queue itself, link
// t + 1 is thread t.
#[derive(Clone, Copy)]
pub enum Beside {
    After(usize, usize),
    Before(usize, usize),
}

// The place of a word in its thread's ten.
fn column_of(f: Field) -> usize
    ensures { (result ≡ column f) × (result < 10) }
{
    match f {
        Field::Place => 0,
        Field::Priority => 1,
        Field::Ticks => 2,
        Field::Outcome => 3,
        Field::Badge => 4,
        Field::Message => 5,
        Field::Owes => 8,
        Field::Note => 9,
    }
}

// The place of a word in its endpoint's five.
fn offset_of(p: Part) -> usize
    ensures { (result ≡ offset p) × (result < 5) }
{
    match p {
        Part::Status => 0,
        Part::Aborting => 1,
        Part::Aborted => 2,
        Part::Cursor => 3,
        Part::End => 4,
    }
}

impl Name for Slot {
    ghost at = { at };

    ghost valid = { ValidSlot };

    #[tactic(auto, unfolding(layout::specs::Addresses::at))]
    fn address(self) -> usize {
        match self {
            Slot::Thread(f, t) => 10 * t + column_of(f),
            Slot::Endpoint(p, e) => 3200 + 5 * e + offset_of(p),
            Slot::Line(l) => 3520 + l,
            Slot::Summary(w) => 3552 + w,
            Slot::Top => 3560,
            Slot::Running => 3561,
            Slot::Unused(i) => 3562 + i,
        }
    }
}

impl Name for Link {
    ghost at = { link_at };

    ghost valid = { ValidLink };

    #[tactic(auto, unfolding(layout::specs::Addresses::link_at))]
    fn address(self) -> usize {
        match self {
            Link::Next(t) => 10 * t + 6,
            Link::Prev(t) => 10 * t + 7,
            Link::Head(q) => 2560 + 2 * q,
            Link::Tail(q) => 2561 + 2 * q,
        }
    }
}

// Which pair of words link x of queue q is, what comes after it and what comes before it. The queue's own is computed
// in either case, so that the choice is no branch.
fn pair_at(q: usize, x: usize) -> usize
    requires { (q ≤ 319) × (x ≤ 256) }
    ensures { Pair result q x }
{
    let own = 1280 + q;
    if x == wide::NOBODY {
        return own;
    }
    let t = x - wide::LINK;
    5 * t + 3
}

impl Name for Beside {
    ghost at = { beside_at };

    ghost valid = { ValidBeside };

    fn address(self) -> usize {
        match self {
            Beside::After(q, x) => 2 * pair_at(q, x),
            Beside::Before(q, x) => 2 * pair_at(q, x) + 1,
        }
    }
}

// The word of a name.
#[tactic(auto, unfolding(layout::specs::Addresses::word))]
pub fn get<N: Name>(tables: &Tables, name: N) -> u32
    requires { N.valid name }
    ensures { result ≡ word tables.now (N.at name) }
{
    tables[name.address()]
}

// The word of a name becomes v.
pub fn put<N: Name>(tables: &mut Tables, name: N, v: u32)
    requires { N.valid name }
    ensures { tables.new ≡ set tables.old (N.at name) v }
{
    tables[name.address()] = v;
}

// The word of a name at the width at which the check reads, so that code above has no cast.
pub fn wide<N: Name>(tables: &Tables, name: N) -> usize
    requires { N.valid name }
    ensures { result ≡ word tables.now (N.at name) }
{
    get(tables, name) as usize
}

// A word of thread t.
// stays: a thread has a Field, an endpoint a Part, each with its own bound; what they share is wide.
pub fn thread(tables: &Tables, f: Field, t: usize) -> usize
    requires { t ≤ 255 }
    ensures { result ≡ word tables.now (at (Slot.Thread f t)) }
{
    wide(tables, Slot::Thread(f, t))
}

// A word of endpoint e.
pub fn endpoint(tables: &Tables, p: Part, e: usize) -> usize
    requires { e ≤ 63 }
    ensures { result ≡ word tables.now (at (Slot.Endpoint p e)) }
{
    wide(tables, Slot::Endpoint(p, e))
}

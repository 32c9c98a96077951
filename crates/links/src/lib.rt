// Doubly linked queues in the lent words. The queue itself is link 0, so the first and the next, the last and the one
// before are one thing, and each operation is the same stores wherever a thread stands, without a branch.
#![tactic(auto)]

ghost use Rattle.std.specs.Prelude.{◌≡◌, ◌≤◌, length};
ghost use Rattle.layout.specs.Addresses.{table_words};
ghost use Rattle.links.specs.Links.{Joinable, JoinsFirst, JoinsLast, Leavable, Leads, LeavesQueue};
ghost use Rattle.links.specs.Links.{PopsFirst, First, Last, Next, Prev};

use layout::codes::NOBODY;
use layout::{Link, Tables, wide};
use words::Beside;

// stays: a link is a word of the lent, fixed memory, as link_of of specs has it, and goes from word to word as it is.

// Thread t joins the tail of queue q.
// stays: the two ends differ in each link that is named; a trait of ends would hold these bodies and their laws.
pub fn push_tail(tables: &mut Tables, q: usize, t: usize)
    requires { Joinable tables.old q t }
    ensures { JoinsLast tables.old q t tables.new }
{
    let last = words::get(tables, Link::Tail(q));
    let link = (t + wide::LINK) as u32;
    words::put(tables, Beside::After(q, last as usize), link);
    words::put(tables, Link::Prev(t), last);
    words::put(tables, Link::Tail(q), link);
}

// Thread t joins the head of queue q.
pub fn push_head(tables: &mut Tables, q: usize, t: usize)
    requires { Joinable tables.old q t }
    ensures { JoinsFirst tables.old q t tables.new }
{
    let first = words::get(tables, Link::Head(q));
    let link = (t + wide::LINK) as u32;
    words::put(tables, Beside::Before(q, first as usize), link);
    words::put(tables, Link::Next(t), first);
    words::put(tables, Link::Head(q), link);
}

// Thread t leaves queue q, in which it stands.
pub fn unlink(tables: &mut Tables, q: usize, t: usize)
    requires { Leavable tables.old q t }
    ensures { LeavesQueue tables.old q t tables.new }
{
    let next = words::get(tables, Link::Next(t));
    let prev = words::get(tables, Link::Prev(t));
    words::put(tables, Beside::After(q, prev as usize), next);
    words::put(tables, Beside::Before(q, next as usize), prev);
    words::put(tables, Link::Next(t), NOBODY);
    words::put(tables, Link::Prev(t), NOBODY);
}

// Thread t, the first of queue q, leaves it; the link to the first of those that are left.
pub fn pop_head(tables: &mut Tables, q: usize, t: usize) -> u32
    requires { Leads tables.old q t }
    ensures { PopsFirst tables.old q t result tables.new }
{
    let next = words::get(tables, Link::Next(t));
    words::put(tables, Beside::Before(q, next as usize), NOBODY);
    words::put(tables, Link::Head(q), next);
    words::put(tables, Link::Next(t), NOBODY);
    next
}

// The link to the first of queue q: thread t is t + 1, and none is 0.
// stays: the reading is one generic get; each of the four promises another neighbour, and takes a queue or a thread.
pub fn first(tables: &Tables, q: usize) -> u32
    requires { q ≤ 319 }
    ensures { First tables.now q result }
{
    words::get(tables, Link::Head(q))
}

// The link to the last of queue q, 0 for none.
pub fn last(tables: &Tables, q: usize) -> u32
    requires { q ≤ 319 }
    ensures { Last tables.now q result }
{
    words::get(tables, Link::Tail(q))
}

// The link to the one behind thread t in its queue.
pub fn next(tables: &Tables, t: usize) -> u32
    requires { t ≤ 255 }
    ensures { Next tables.now t result }
{
    words::get(tables, Link::Next(t))
}

// The link to the one before thread t in its queue.
pub fn prev(tables: &Tables, t: usize) -> u32
    requires { t ≤ 255 }
    ensures { Prev tables.now t result }
{
    words::get(tables, Link::Prev(t))
}

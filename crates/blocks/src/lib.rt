// A thread's block: the words of a thread that are no links, as one struct. It is loaded from the tables, lent to be
// changed, and stored back. A tick changes it where it is lent.
#![tactic(auto)]

ghost use Rattle.std.specs.Prelude.{◌≡◌};
ghost use Rattle.store.specs.Steps.{Shown};
ghost use Rattle.store.specs.Store.{IsThread};
ghost use Rattle.blocks.specs.Blocks.{ticked_block, LoadsBlock, IsBlock, SetsBlock};

use calls::codes::TICKS;
use layout::{Field, Tables};

#[derive(Clone, Copy)]
pub struct Block {
    pub place: u32,
    pub priority: u32,
    pub ticks: u32,
    pub outcome: u32,
    pub badge: u32,
    pub message: u32,
    pub owes: u32,
    pub note: u32,
}

impl Block {
    // The block with a tick less; at 0 it has all again.
    fn ticked(self) -> Self
        ensures { result ≡ ticked_block self }
    {
        let ticks = if self.ticks < 2 {
            TICKS
        } else {
            self.ticks - 1
        };
        Block { ticks, ..self }
    }

    // A tick changes the block where it is lent.
    pub fn tick(&mut self)
        ensures { self.new ≡ ticked_block self.old }
    {
        *self = self.ticked();
    }
}

// The block is lent to the tick. Whoever calls this holds no reference to a struct.
pub fn lend_to_tick(block: Block) -> Block
    ensures { result ≡ ticked_block block }
{
    let mut lent = block;
    lent.tick();
    lent
}

// The block of thread t.
pub fn load(tables: &Tables, t: usize) -> Block
    requires { Shown tables.now (IsThread t) }
    ensures { LoadsBlock tables.now t result }
{
    Block {
        place: store::thread(tables, Field::Place, t),
        priority: store::thread(tables, Field::Priority, t),
        ticks: store::thread(tables, Field::Ticks, t),
        outcome: store::thread(tables, Field::Outcome, t),
        badge: store::thread(tables, Field::Badge, t),
        message: store::thread(tables, Field::Message, t),
        owes: store::thread(tables, Field::Owes, t),
        note: store::thread(tables, Field::Note, t),
    }
}

// Thread t has this block.
pub fn store(tables: &mut Tables, t: usize, b: Block)
    requires { Shown tables.old (IsThread t) × IsBlock b }
    ensures { SetsBlock tables.old t b tables.new }
{
    store::set_priority(tables, t, b.priority);
    store::set_ticks(tables, t, b.ticks);
    store::set_owes(tables, t, b.owes, b.note);
    store::set_place(tables, t, b.place, b.outcome, b.badge, b.message);
}

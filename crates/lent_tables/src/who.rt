// Who runs, read from the tables.
ghost use Rattle.std.specs.Prelude.{◌≡◌};
ghost use Rattle.lent_tables.specs.Entries.{runner_in};

use calls::codes::LAST_THREAD;
use layout::codes::LINK;
use layout::{Slot, Tables};

// The same in tables of their length. The link 0 is to nobody.
#[tactic(auto, unfolding(crate::specs::Entries::runner_in))]
fn runner(tables: &Tables) -> Option<u32>
    ensures { result ≡ runner_in tables.now }
{
    let thread = words::get(tables, Slot::Running).checked_sub(LINK)?;
    (thread <= LAST_THREAD).then_some(thread)
}

// Who runs: a thread or nobody, whatever the words are.
#[tactic(auto, unfolding(crate::specs::Entries::runner_in))]
pub fn running(tables: &[u32]) -> Option<u32>
    ensures { result ≡ runner_in tables.now }
{
    runner(tables.as_array()?)
}

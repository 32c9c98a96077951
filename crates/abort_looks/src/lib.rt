// The looks of an abort: each takes the waiter at the cursor. What is left to look at stands in the tables.
#![tactic(auto)]

ghost use Rattle.machine.specs.Aborts.{look};
ghost use Rattle.store.specs.Steps.{Shown, Does};
ghost use Rattle.abort_looks.specs.Looks.{Cursor, InMid, LooksOn};

use layout::codes::{LINK, NOBODY};
use layout::{Field, Part, Tables};

// A look takes the cursor's waiter w: under the abort's badge it is removed, else it is kept and the cursor moves on.
fn look(tables: &mut Tables, e: usize, w: usize)
    requires { Shown tables.old (Cursor e w) }
    ensures { Does tables.old tables.new (Cursor e w) (look e w) }
{
    let badge = store::thread(tables, Field::Badge, w);
    let hit = debts::under_abort(tables, e, badge);
    if hit {
        endpoint_queues::wake_from(tables, e, w, calls::codes::MESSAGE_ABORTED, 0, 0);
        return;
    }
    endpoint_queues::pass_marks(tables, w, e);
}

// As many looks as the allowance lets, until nothing is left to look at; how many they were.
pub fn look_up_to(tables: &mut Tables, e: usize, allowance: u32) -> u32
    requires { Shown tables.old (InMid e) }
    ensures { LooksOn tables.old e allowance result tables.new }
{
    for count in 0..allowance {
        let cursor = store::endpoint(tables, Part::Cursor, e);
        if cursor == NOBODY {
            return count;
        }
        look(tables, e, (cursor - LINK) as usize);
    }
    allowance
}

// How a thread was woken, read from the tables: what a host tells the thread when it runs again.
ghost use Rattle.std.specs.Prelude.{◌≡◌, ◌≤◌};
ghost use Rattle.lent_tables.specs.Entries.{woken_in};

use calls::codes::{LAST_THREAD, MESSAGE_RECEIVED};
use layout::{Field, Slot, Tables};

// An outcome, and what was received with it: badge and message with outcome 2, else 0 and 0.
// stays: (a) an outcome is the word as it is, whatever it is, in `woken_in` and for C.
#[derive(Clone, Copy, Default)]
pub struct Waking {
    pub outcome: u32,
    pub badge: u32,
    pub message: u32,
}

// The same in tables of their length, of a thread.
#[tactic(auto, unfolding(crate::specs::Entries::woken_in))]
fn told(tables: &Tables, t: usize) -> Waking
    requires { t ≤ 255 }
    ensures { result ≡ woken_in tables.now t }
{
    let outcome = words::get(tables, Slot::Thread(Field::Outcome, t));
    if outcome != MESSAGE_RECEIVED {
        return Waking {
            outcome,
            ..Waking::default()
        };
    }
    let badge = words::get(tables, Slot::Thread(Field::Badge, t));
    let message = words::get(tables, Slot::Thread(Field::Message, t));
    Waking {
        outcome,
        badge,
        message,
    }
}

// How the last waiting of a thread ended, whatever the words are.
#[tactic(auto, unfolding(crate::specs::Entries::woken_in))]
pub fn woken(tables: &[u32], thread: u32) -> Waking
    ensures { result ≡ woken_in tables.now thread }
{
    if thread > LAST_THREAD {
        return Waking::default();
    }
    match tables.as_array() {
        Some(tables) => told(tables, thread as usize),
        None => Waking::default(),
    }
}

// The entries on the lent memory: make it fresh, and check it. The check makes the tests of sound_words and
// sound_queues, which go once through all words, and accepts exactly those that show a sound state.
#![tactic(auto)]

ghost use Rattle.std.specs.Prelude.{◌≡◌};
ghost use Rattle.soundness.specs.Checks.{good_test};
ghost use Rattle.calls.specs.Answers.{code_in};
ghost use Rattle.lent_tables.specs.Entries.{lent, zeros, Freshened, Checked, freshened, checked};

use calls::Refusal;
use grants::Grants;
use layout::{Scratch, Tables};

pub mod how;
pub mod who;

pub use layout::{SCRATCH_WORDS, TABLE_WORDS};

// All tests. The queues are walked before the places are tried, which go by whom they met.
#[tactic(auto, using(crate::proofs::Verdict::walked), unfolding(soundness::specs::Checks::good_test))]
fn passes(tables: &Tables, scratch: &mut Scratch) -> bool
    requires { scratch.old ≡ zeros }
    ensures { result ≡ good_test tables.now }
{
    sound_words::thread_words::threads(tables)
        && sound_queues::levels::levels(tables, scratch)
        && sound_queues::endpoints::endpoints(tables, scratch)
        && sound_words::rest::lines(tables)
        && sound_words::chosen::summary(tables)
        && sound_words::chosen::running(tables)
        && sound_words::rest::unused(tables)
        && sound_queues::places::places(tables, scratch)
}

// The tables become those of no thread, endpoint or pending line, and nobody has a right.
#[tactic(auto, using(crate::proofs::Verdict::made), unfolding(crate::specs::Entries::freshened))]
pub fn fresh(tables: &mut [u32], grants: &mut [u32]) -> Result<(), Refusal>
    ensures { ◌≡◌ {A = Freshened}
        (record { code = code_in result; tables = tables.new; grants = grants.new })
        (freshened tables.old grants.old) }
{
    let tables: &mut Tables = tables.as_mut_array().ok_or(Refusal::Length)?;
    let grants: &mut Grants = grants.as_mut_array().ok_or(Refusal::Length)?;
    tables.fill(0);
    grants.fill(0);
    Ok(())
}

// The check of memory that has its lengths.
#[tactic(auto, using(crate::proofs::Verdict::tried), unfolding(crate::specs::Entries::checked))]
pub fn verify(tables: &Tables, grants: &Grants, scratch: &mut Scratch) -> Result<(), Refusal>
    ensures { ◌≡◌ {A = Checked} (record { code = code_in result; scratch = scratch.new })
        (checked (lent tables.now grants.now scratch.old)) }
{
    scratch.fill(0);
    let sound = grants::sound(grants) && passes(tables, scratch);
    scratch.fill(0);
    if !sound {
        return Err(Refusal::Unsound);
    }
    Ok(())
}

// Whether the tables show a sound state and the grants are sound; neither is changed.
#[tactic(auto, using(crate::proofs::Verdict::tried), unfolding(crate::specs::Entries::checked))]
pub fn check(tables: &[u32], grants: &[u32], scratch: &mut [u32]) -> Result<(), Refusal>
    ensures { ◌≡◌ {A = Checked} (record { code = code_in result; scratch = scratch.new })
        (checked (lent tables.now grants.now scratch.old)) }
{
    let tables: &Tables = tables.as_array().ok_or(Refusal::Length)?;
    let grants: &Grants = grants.as_array().ok_or(Refusal::Length)?;
    let scratch: &mut Scratch = scratch.as_mut_array().ok_or(Refusal::Length)?;
    verify(tables, grants, scratch)
}

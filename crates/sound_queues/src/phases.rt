// The phases of a walk through an abort's queue, by its marks. No sender under the aborted badge may stand outside
// them.
ghost use Rattle.std.specs.Prelude.{◌≡◌};
ghost use Rattle.soundness.specs.Checks.{phase_at, phase_behind, allowed, complete};

use layout::wide;
use soundness::Phase;

// The phase at link y, where the cursor is c.
#[tactic(auto, unfolding(soundness::specs::Checks::phase_at))]
pub fn enter(f: Phase, c: usize, y: usize) -> Phase
    ensures { result ≡ phase_at f c y }
{
    match f {
        Phase::Ahead if y == c => Phase::Inside,
        _ => f,
    }
}

// The phase behind link y, where the end mark is d.
#[tactic(auto, unfolding(soundness::specs::Checks::phase_behind))]
pub fn leave(f: Phase, d: usize, y: usize) -> Phase
    ensures { result ≡ phase_behind f d y }
{
    match f {
        Phase::Inside if y == d => Phase::Past,
        _ => f,
    }
}

// Whether a waiter under badge w may stand here, where the aborted badge is b.
#[tactic(auto, unfolding(soundness::specs::Checks::allowed))]
pub fn allowed(f: Phase, b: usize, w: usize) -> bool
    ensures { result ≡ allowed f b w }
{
    matches!(f, Phase::Inside) || w != b
}

// At the end of the queue both marks have been met, or there are none.
#[tactic(auto, unfolding(soundness::specs::Checks::complete))]
pub fn complete(f: Phase, c: usize) -> bool
    ensures { result ≡ complete f c }
{
    match f {
        Phase::Ahead => c == wide::NOBODY,
        Phase::Inside => false,
        Phase::Past => true,
    }
}

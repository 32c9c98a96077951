// The threads met so far, in the scratch, one word for each. Nothing outside this file knows how that is kept.
ghost use Rattle.std.specs.Prelude.{◌≡◌, ◌≤◌, length};
ghost use Rattle.layout.specs.Addresses.{scratch_words};
ghost use Rattle.sound_queues.specs.Met.{Meets, HasMet};

use layout::Scratch;

// Thread t is met.
pub fn meet(scratch: &mut Scratch, t: usize)
    requires { t ≤ 255 }
    ensures { Meets scratch.old scratch.new t }
{
    scratch[t] = 1;
}

// Whether thread t was met.
pub fn has_met(scratch: &Scratch, t: usize) -> bool
    requires { t ≤ 255 }
    ensures { HasMet scratch.now t result }
{
    scratch[t] == 1
}

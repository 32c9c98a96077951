// Lists a journal whose bytes come in parts, however they are divided, in each form: every call is told with its last
// byte.
#![tactic(auto)]

ghost use Rattle.std.specs.Prelude.{◌≡◌, ◌+◌, ◌*◌, ◌<◌, ◌≤◌, true, [], length, replicate};
ghost use Rattle.lent_tables.specs.Entries.{lent};
ghost use Rattle.texts.specs.Buffer.{Counts, Wrote};
ghost use Rattle.journal.specs.Words.{read_at};
ghost use Rattle.input.specs.Words.{words_in};
ghost use Rattle.forms.specs.Forms.{text_room};
ghost use Rattle.rows.specs.Memory.{within, SameSlices};
ghost use Rattle.rows.specs.Taking.{Turned, turned};
ghost use Rattle.lister.specs.Feeding.{ready};

use calls::Refusal;
use forms::Form;
use parsing::words_taken;
use rows::{Memory, Turn};

// Room for each byte of a journal: a call has four at least.
pub const PER_BYTE: usize = forms::ROOM / 4;

// The bytes held of a call that is not yet whole, the next call's index, whether the journal goes on.
// stays: (d) an array and its length: an ArrayVec would need the same invariant, that it has room for one byte more.
#[derive(Clone, Copy)]
pub struct Lister {
    pub bytes: [u8; 12],
    pub held: usize,
    pub index: u64,
    pub going: bool,
    // A call has twelve bytes at most.
    pub ghost few: { held < 12 },
}

// Whether the bytes have all the words that their first word asks for.
fn whole(bytes: &[u8]) -> bool
    ensures { result ≡ ready bytes.now }
{
    let n = bytes.len();
    if n < 4 {
        return false;
    }
    words_taken(input::word(bytes, 0) >> 24) * 4 <= n
}

// Reads the bytes and takes their call.
fn turn(bytes: &[u8], memory: &mut Memory<'_>) -> Turn
    requires { length bytes.now ≤ 12 }
    ensures taken { ◌≡◌ {A = Turned} (record { turn = result; left = within memory.new })
        (turned (read_at (words_in bytes.now) 0) (within memory.old)) }
    ensures same { SameSlices memory.old memory.new }
{
    let mut words = [0u32; 3];
    let count = input::words(bytes, &mut words);
    memory.next(&words[..count], 0)
}

impl Lister {
    ghost use Rattle.lister.specs.Feeding.{told_by, byte_to, fed, ending};
    ghost use Rattle.lister.specs.Buffers.{progress_of, Feeds, per_byte};

    // Nothing held yet, and the first call's index.
    pub fn new() -> Lister
        ensures bytes { result.bytes ≡ replicate 12 0 }
        ensures held { result.held ≡ 0 }
        ensures index { result.index ≡ 0 }
        ensures going { result.going ≡ true }
    {
        Lister {
            bytes: [0; 12],
            held: 0,
            index: 0,
            going: true,
        }
    }

    // Takes the call of these bytes, which are ready, and tells it; then nothing is held.
    fn answer(
        &mut self,
        form: Form,
        bytes: &[u8],
        memory: &mut Memory<'_>,
        out: &mut [u8],
        used: usize,
    ) -> usize
        requires { (length bytes.now ≤ 12) × (used + text_room ≤ length out.old) }
        ensures none_held { self.new.held ≡ 0 }
        ensures room { result ≤ used + text_room }
        ensures feeds { Feeds
            (told_by form (turned (read_at (words_in bytes.now) 0) (within memory.old))
            (progress_of self.old (within memory.old)))
            out.old used self.new result (within memory.new) out.new }
        ensures same { SameSlices memory.old memory.new }
    {
        let ran = memory.running();
        let index = self.index;
        self.held = 0;
        match turn(bytes, memory) {
            Turn::Took {
                call,
                answer,
                who,
                next: _,
            } => {
                // No run makes so many calls that it wraps.
                self.index = index.wrapping_add(1);
                forms::call(form, out, used, index, ran, call, answer, who)
            }
            Turn::Stopped { code, who } => {
                self.going = false;
                forms::stop(form, out, used, index, code, who)
            }
            Turn::Over => used,
        }
    }

    // Takes one byte: it is held, or the last of a call, which is taken.
    fn byte(
        &mut self,
        form: Form,
        byte: u8,
        memory: &mut Memory<'_>,
        out: &mut [u8],
        used: usize,
    ) -> usize
        requires { used + (self.old.held + 1) * per_byte ≤ length out.old }
        ensures room { result + self.new.held * per_byte ≤ used + (self.old.held + 1) * per_byte }
        ensures feeds { Feeds
            (byte_to form byte (progress_of self.old (within memory.old)))
            out.old used self.new result (within memory.new) out.new }
        ensures same { SameSlices memory.old memory.new }
    {
        if !self.going {
            return used;
        }
        let mut bytes = self.bytes;
        bytes[self.held] = byte;
        let held = self.held + 1;
        if whole(&bytes[..held]) {
            return self.answer(form, &bytes[..held], memory, out, used);
        }
        self.bytes = bytes;
        self.held = held;
        used
    }

    // Tells the calls that become whole with these bytes.
    pub fn feed(
        &mut self,
        form: Form,
        part: &[u8],
        memory: &mut Memory<'_>,
        out: &mut [u8],
    ) -> usize
        requires { (self.old.held + length part.now) * per_byte ≤ length out.old }
        ensures counts { Counts result out.new }
        ensures feeds { Feeds
            (fed form part.now (progress_of self.old (within memory.old)))
            out.old 0 self.new result (within memory.new) out.new }
        ensures same { SameSlices memory.old memory.new }
    {
        let mut used = 0;
        for byte in part {
            used = self.byte(form, *byte, memory, out, used);
        }
        used
    }

    // The bytes have ended: those still held make no call.
    pub fn finish(&self, form: Form, tables: &[u32], out: &mut [u8]) -> usize
        requires { text_room ≤ length out.old }
        ensures counts { Counts result out.new }
        ensures wrote { Wrote out.old 0 (ending form (progress_of self.now (lent tables.now [] []))) result
            out.new }
    {
        if self.held == 0 {
            return 0;
        }
        if !self.going {
            return 0;
        }
        forms::stop(
            form,
            out,
            0,
            self.index,
            Refusal::NoCall.into(),
            lent_tables::who::running(tables),
        )
    }
}

// The tools for C that are not the core, under the names of include/nazsombet_tools.h: a library of its own, so that a
// box with the core links none of it. A slice passes as a pointer and a length, an array of fixed length as a pointer.
// A call passes as six plain numbers, as in core_c; those that name no call are refused by 18, after 28 and before 19.
#![tactic(auto)]

ghost use Rattle.std.specs.Prelude.{◌≡◌};
ghost use Rattle.calls.specs.Answers.{maybe_of};
ghost use Rattle.texts.specs.Filed.{Filed};
ghost use Rattle.wording.specs.Entry.{told};
ghost use Rattle.billing.specs.Ticks.{Counted, count_for};
ghost use Rattle.tools_c.specs.Entries.{sentence_named, sentence_in};

use calls::{Answer, Call, Refusal, codes};

// The sentence of the call that the numbers name, if they name one.
#[tactic(auto, using(crate::proofs::Entries::short_named, crate::proofs::Entries::none_named))]
fn sentence_named(out: &mut [u8], named: Option<Call>, answer: Answer) -> Result<usize, Refusal>
    ensures { ◌≡◌ {A = Filed} (told result out.new) (sentence_named (maybe_of named) answer out.old) }
{
    if out.len() < sentences::ROOM {
        return Err(Refusal::Short);
    }
    let call = named.ok_or(Refusal::NoCall)?;
    sentences::sentence(out, call, answer)
}

// Writes the sentence of a call and its answer.
#[tactic(auto, unfolding(crate::specs::Entries::sentence_in))]
#[unsafe(no_mangle)]
pub extern "C" fn nazsombet_sentence(
    call: &[u32; 6],
    answer: &[u32; 4],
    out: &mut [u8],
    used: &mut usize,
) -> u32
    ensures { ◌≡◌ {A = Filed} (record { code = result; used = used.new; out = out.new })
        (sentence_in call.now answer.now out.old) }
{
    let named = numbers::call_in(*call);
    match sentence_named(out, named, Answer::from(*answer)) {
        Ok(written) => {
            *used = written;
            codes::DONE
        }
        Err(why) => {
            *used = 0;
            why.into()
        }
    }
}

// Counts the ticks of a journal for each thread number and, last, the idle ones.
#[unsafe(no_mangle)]
pub extern "C" fn nazsombet_count_ticks(journal: &[u32], rate: u32, counts: &mut [u32]) -> u32
    ensures { ◌≡◌ {A = Counted} (record { code = result; counts = counts.new })
        (count_for journal.now rate counts.old) }
{
    calls::code(ticks::count(journal, rate, counts))
}

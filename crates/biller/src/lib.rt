// From all bytes of standard input to all bytes of standard output: the rate as the first word, the journal after it,
// and the bill. Which bytes it is stands in billing's specs/Bills.antt.
#![tactic(auto)]

ghost use Rattle.std.specs.Prelude.{◌≤◌, ◌≡◌, length, drop, replicate, IfOk, IfErr};
ghost use Rattle.calls.specs.Answers.{code_in, code_of};
ghost use Rattle.texts.specs.Buffer.{Wrote, Counts};
ghost use Rattle.input.specs.Words.{words_in};
ghost use Rattle.billing.specs.Ticks.{most_rate, count_words, Counted, count_for};
ghost use Rattle.billing.specs.Bills.{alone, bill_of, printed};
ghost use Rattle.bills.specs.Lines.{Few, bill_room};
ghost use Rattle.biller.specs.Input.{input_room};

use calls::Refusal;

// So many bytes are looked at. With them there are more words than are billed, so those behind them change nothing.
pub const ROOM: usize = 64_008;

// The bytes of the rate.
const RATE: usize = 4;

// One word more than is billed.
const WORDS: usize = ticks::MOST_WORDS + 1;

// Counts the ticks of the words behind the rate.
fn count(bytes: &[u8], rate: u32, counts: &mut [u32]) -> Result<(), Refusal>
    requires { (4 ≤ length bytes.now) × (length bytes.now ≤ input_room) }
    ensures { ◌≡◌ {A = Counted} (record { code = code_in result; counts = counts.new })
        (count_for (words_in (drop 4 bytes.now)) rate counts.old) }
{
    let mut journal = [0u32; WORDS];
    let n = input::words(&bytes[RATE..], &mut journal);
    ticks::count(&journal[..n], rate, counts)
}

// The rate, and the counts of the journal behind it, where they are billed.
fn counted(bytes: &[u8], counts: &mut [u32]) -> Result<u32, Refusal>
    requires { (length bytes.now ≤ input_room) × (counts.old ≡ replicate count_words 0) }
    ensures billed { IfOk result (λ rate.
        (printed bytes.now ≡ bill_of rate counts.new) × (rate ≤ most_rate) × Few counts.new) }
    ensures refused { IfErr result (λ why. printed bytes.now ≡ alone (code_of why)) }
{
    if bytes.len() < RATE {
        return Err(Refusal::NoCall);
    }
    let rate = input::word(bytes, 0);
    count(bytes, rate, counts)?;
    if bytes.len() % 4 != 0 {
        return Err(Refusal::NoCall);
    }
    Ok(rate)
}

// The number of a refusal, alone on a line.
fn refuse(out: &mut [u8], why: Refusal) -> usize
    requires { bill_room ≤ length out.old }
    ensures wrote { Wrote out.old 0 (alone (code_of why)) result out.new }
    ensures counts { Counts result out.new }
{
    bills::alone(out, 0, why.into())
}

// The bill at the front of the buffer, or the number of its refusal; how many bytes.
pub fn bill(bytes: &[u8], out: &mut [u8]) -> usize
    requires { (length bytes.now ≤ input_room) × (bill_room ≤ length out.old) }
    ensures wrote { Wrote out.old 0 (printed bytes.now) result out.new }
    ensures counts { Counts result out.new }
{
    let mut counts = [0u32; ticks::COUNTS];
    match counted(bytes, &mut counts) {
        Ok(rate) => bills::write(rate, &counts, out),
        Err(why) => refuse(out, why),
    }
}

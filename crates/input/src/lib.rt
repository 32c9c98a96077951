// Bytes and the little-endian words in them.
#![tactic(auto)]

ghost use Rattle.std.specs.Prelude.{◌+◌, ◌*◌, ◌/◌, ◌≤◌, ◌≡◌, length, take};
ghost use Rattle.texts.specs.Buffer.{Counts};
ghost use Rattle.input.specs.Words.{little_endian, words_in};

// The word whose lowest byte stands at a place.
pub fn word(bytes: &[u8], at: usize) -> u32
    requires { at + 4 ≤ length bytes.now }
    ensures { result ≡ little_endian bytes.now at }
{
    u32::from_le_bytes([bytes[at], bytes[at + 1], bytes[at + 2], bytes[at + 3]])
}

// The whole words among the bytes, to the front of the buffer; how many.
pub fn words(bytes: &[u8], words: &mut [u32]) -> usize
    requires { length bytes.now ≤ length words.old * 4 }
    ensures value { result ≡ length bytes.now / 4 }
    ensures counts { Counts result words.new }
    ensures words_after { take result words.new ≡ words_in bytes.now }
{
    let count = bytes.len() / 4;
    for i in 0..count {
        words[i] = word(bytes, i * 4);
    }
    count
}

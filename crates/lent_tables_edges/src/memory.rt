// Whole memories: filling, summing, comparing.
ghost use Rattle.std.specs.Prelude.{◌<◌};

use calls::Refusal;

// Words none of which is 0.
pub fn fill(words: &mut [u32]) {
    let mut word: u32 = 0;
    for w in words.iter_mut() {
        word = word.wrapping_add(0x9E37_79B9);
        *w = word;
    }
}

fn wide(word: u32) -> u64
    ensures { result < 4294967296 }
{
    u64::from(word)
}

// A number by which two programs can see that they have the same words.
pub fn sum(words: &[u32]) -> u64 {
    let mut sum: u64 = 0;
    for w in words {
        sum = (31 * sum + wide(*w)) % 4_294_967_291;
    }
    sum
}

// How many words are not the same. The sum has no branch, so that several words are compared at a time.
pub fn differing(a: &[u32], b: &[u32]) -> usize {
    let mut n: u32 = 0;
    for (x, y) in a.iter().zip(b) {
        n = n.wrapping_add(u32::from(x != y));
    }
    n as usize
}

// How many words are not 0, summed in the same way.
pub fn nonzero(words: &[u32]) -> usize {
    let mut n: u32 = 0;
    for &word in words {
        n = n.wrapping_add(u32::from(word != 0));
    }
    n as usize
}

// The check, beside grants of nobody.
pub fn check(tables: &[u32], scratch: &mut [u32]) -> Result<(), Refusal> {
    let none = [0u32; grants::GRANT_WORDS];
    lent_tables::check(tables, &none, scratch)
}

// Making fresh, beside grants of nobody.
pub fn fresh(tables: &mut [u32]) -> Result<(), Refusal> {
    let mut none = [0u32; grants::GRANT_WORDS];
    lent_tables::fresh(tables, &mut none)
}

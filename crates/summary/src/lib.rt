// The two-level summary of the ready queues: which of the 256 levels are occupied. Bit p mod 32 of word p div 32 is
// set exactly when level p is occupied, and bit w of the top word exactly when word w is not 0.
#![tactic(auto)]

ghost use Rattle.std.specs.Prelude.{◌≡◌, true, false, ◌<◌};
ghost use Rattle.summary.specs.Levels.{summary_of, no_level, IsSummary, SetsBit, Finds};

// The words of the levels, and how many levels each has.
pub const WORDS: usize = 8;

pub const LEVELS_IN_WORD: usize = 32;

#[derive(Clone, Copy)]
pub struct Summary {
    pub words: [u32; WORDS],
    pub top: u32,
}

impl Summary {
    // No level is occupied.
    pub fn new() -> Self
        ensures { result ≡ summary_of no_level }
    {
        Summary {
            words: [0; WORDS],
            top: 0,
        }
    }

    // The summary with level p occupied. Its word is then not 0, so the word's bit is set too. The words stand in an
    // array of their own while one is changed, so that the top word need not.
    pub fn occupied(self, p: u32) -> Self
        requires { p < 256 }
        ensures { SetsBit self p true result }
    {
        let w = (p / 32) as usize;
        let mut words = self.words;
        words[w] |= 1u32 << (p % 32);
        let top = self.top | 1u32 << (p / 32);
        Summary { words, top }
    }

    // stays: occupied always sets the top word's bit, emptied clears it only where the word is then 0.
    // The summary with level p empty. The word's bit goes with the last level of the word.
    pub fn emptied(self, p: u32) -> Self
        requires { p < 256 }
        ensures { SetsBit self p false result }
    {
        let w = (p / 32) as usize;
        let mut words = self.words;
        let word = words[w] & !(1u32 << (p % 32));
        words[w] = word;
        if word == 0 {
            let top = self.top & !(1u32 << (p / 32));
            return Summary { words, top };
        }
        Summary {
            words,
            top: self.top,
        }
    }

    // The highest occupied level, if there is one, by the leading zeros of the top word and then of the word that it
    // names. Here too the words have an array of their own.
    pub fn highest(self) -> Option<u32>
        requires { IsSummary self }
        ensures { Finds self result }
    {
        let top = self.top;
        if top == 0 {
            return None;
        }
        let w = 31 - u32::leading_zeros(top);
        let i = w as usize;
        let words = self.words;
        let word = words[i];
        let bit = 31 - u32::leading_zeros(word);
        Some(32 * w + bit)
    }
}

// What reading and writing a call answer.
use calls::Call;

// What the words at a place read as.
// stays: (a) `read_at`, `course_from` and the theorems on refusals are over it, its code a number.
#[derive(Clone, Copy)]
pub enum Read {
    // A call, and the number of the first word not yet read.
    Found { call: Call, next: usize },
    // 18 or 19, and the place, where the reader stays.
    Refused { code: u32, at: usize },
    // The place is at or past the last word.
    Ended,
}

// A call as words: how many, and the words with spare words 0.
// stays: (a) C's room is three words, and `as_written` says that the spare ones are 0.
#[derive(Clone, Copy)]
pub struct Words {
    pub count: usize,
    pub words: [u32; 3],
}

// What the check of the lent tables tries, test by test, and that all tests hold exactly where the memory shows a sound
// state. The definitions stand in specs/; the code that makes the tests is that of sound_words and sound_queues.
#![tactic(auto)]

// Where a walk through an abort's queue is: before its cursor, from there to its end mark, or past that.
#[derive(Clone, Copy)]
pub enum Phase {
    Ahead,
    Inside,
    Past,
}

// The check's tests that go through the words in turn: the threads' blocks, the lines, the summary, the running thread
// and the unused words. Each public function answers a test of soundness/specs/Checks.
#![tactic(auto)]

pub mod chosen;
pub mod rest;
pub mod thread_words;

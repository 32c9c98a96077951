// The check's tests that follow the queues' links: each queue is walked once and whoever is met is noted in the
// scratch; then each thread's place is compared with whom they met. Each walk answers a test of soundness/specs/Checks.
#![tactic(auto)]

pub mod endpoints;
pub mod levels;
pub mod met;
mod phases;
pub mod places;

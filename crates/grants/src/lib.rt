// The lent memory of the grants: whether it is sound, whether a thread lacks what its call needs, and what call 13 and
// the creations store.
#![tactic(auto)]

ghost use Rattle.std.specs.Prelude.{◌≡◌, true, ◌^◌, ◌≤◌, ◌<◌, length};
ghost use Rattle.calls.specs.declared.Call.TheVariants.{Grant};
ghost use Rattle.calls.specs.Calls.{endpoint_of, in_range};
ghost use Rattle.machine.specs.Lists.{put};
ghost use Rattle.machine.specs.Grants.{grants?, grant_word, lacks, regranted};
ghost use Rattle.grants.specs.Memory.{grant_words, grants_of, grant_image, grants_test};

use calls::Call;
use calls::codes::BADGES;
use calls::sizes::{ENDPOINTS, THREADS};

// How many words are lent for the grants: one for each thread at each endpoint, its rights times BADGES and its badge.
pub const GRANT_WORDS: usize = THREADS * ENDPOINTS;

pub type Grants = [u32; GRANT_WORDS];

// The rights.
const SEND: u32 = 1;

const RECEIVE: u32 = 2;

const DELETE: u32 = 4;

const ABORT: u32 = 8;

// Whether no word has a badge without a right. The tests are joined without a branch, so that several words are tried
// at a time.
pub fn sound(grants: &Grants) -> bool
    ensures { result ≡ grants_test grants.now }
{
    let mut sound = true;
    for &word in grants {
        sound &= (word == 0) | (word >= BADGES);
    }
    sound
}

// The word of a thread at an endpoint.
fn granted(grants: &Grants, thread: usize, endpoint: u32) -> u32
    requires { (thread ≤ 255) × (endpoint ≤ 63) }
    ensures { result ≡ grants_of grants.now thread endpoint }
{
    grants[ENDPOINTS * thread + endpoint as usize]
}

// Whether the word grants a right.
fn permits(word: u32, right: u32) -> bool
    requires { 1 ≤ right }
    ensures { result ≡ grants? right word }
{
    word / BADGES / right % 2 == 1
}

// Whether the thread that makes the call lacks the right that it needs, or the badge that it sends under.
#[tactic(auto, unfolding(machine::specs::Grants::lacks))]
pub fn lacks(grants: &Grants, thread: usize, c: Call) -> bool
    requires { (thread ≤ 255) × (in_range c ≡ true) }
    ensures { result ≡ lacks (grants_of grants.now thread (endpoint_of c)) c }
{
    match c {
        Call::Send {
            endpoint,
            badge,
            ..
        } => {
            let word = granted(grants, thread, endpoint);
            !(permits(word, SEND) & (word % BADGES == badge))
        }
        Call::Receive { endpoint } => !permits(granted(grants, thread, endpoint), RECEIVE),
        Call::Delete { endpoint, .. } => !permits(granted(grants, thread, endpoint), DELETE),
        Call::Abort { endpoint, .. } => !permits(granted(grants, thread, endpoint), ABORT),
        _ => false,
    }
}

// A thread has no grants at any endpoint.
pub fn clear_thread(grants: &mut Grants, thread: usize)
    requires { thread ≤ 255 }
    ensures { grants.new ≡ grant_image (put (grants_of grants.old) thread (λ e. 0)) }
{
    let first = ENDPOINTS * thread;
    grants[first..first + ENDPOINTS].fill(0);
}

// No thread has grants at an endpoint.
pub fn clear_endpoint(grants: &mut Grants, endpoint: usize)
    requires { endpoint ≤ 63 }
    ensures { grants.new ≡ grant_image (λ t. put (grants_of grants.old t) endpoint 0) }
{
    for t in 0..THREADS {
        grants[ENDPOINTS * t + endpoint] = 0;
    }
}

// The word of rights and a badge.
fn grant_word(rights: u32, badge: u32) -> u32
    requires { (rights ≤ 15) × (badge < 2 ^ 28) }
    ensures { result ≡ grant_word rights badge }
{
    if rights == 0 {
        return 0;
    }
    rights * BADGES + badge
}

// The word of a thread at an endpoint becomes v.
fn store(grants: &mut Grants, thread: usize, endpoint: usize, v: u32)
    requires { (thread ≤ 255) × (endpoint ≤ 63) }
    ensures { grants.new
        ≡ grant_image (put (grants_of grants.old) thread
        (put (grants_of grants.old thread) endpoint v)) }
{
    grants[ENDPOINTS * thread + endpoint] = v;
}

// Call 13's word: the rights and the badge of a thread at an endpoint.
#[tactic(auto, unfolding(machine::specs::Grants::regranted))]
pub fn give(grants: &mut Grants, thread: usize, endpoint: usize, rights: u32, badge: u32)
    requires { (thread ≤ 255) × (endpoint ≤ 63) × (rights ≤ 15)
        × (badge < 2 ^ 28) }
    ensures { grants.new
        ≡ grant_image (regranted (Grant thread endpoint rights badge) (grants_of grants.old)) }
{
    store(grants, thread, endpoint, grant_word(rights, badge));
}

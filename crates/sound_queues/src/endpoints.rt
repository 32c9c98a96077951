// The endpoints: status, abort and queue. A queue is walked once, as those of the levels are; the walk also finds the
// abort's marks in it.
ghost use Rattle.std.specs.Prelude.{◌≡◌, ◌≤◌, length};
ghost use Rattle.layout.specs.declared.Part.{Part};
ghost use Rattle.layout.specs.Addresses.{table_words, scratch_words, endpoint_queue};
ghost use Rattle.layout.specs.Tests.{all};
ghost use Rattle.soundness.specs.Checks.{endpoint_at, kind_in, banned_of, abort_test};
ghost use Rattle.soundness.specs.Checks.{status_test, endpoint_test, met, met_below};
ghost use Rattle.sound_queues.specs.Steps.{stands_behind, waiters_as, kind_fits};
ghost use Rattle.sound_queues.specs.Met.{met_in, Follows, FollowsAll};

use calls::sizes::{ENDPOINTS, THREADS};
use layout::codes::ENDPOINT_QUEUES;
use layout::{Field, Link, Part, Scratch, Tables, wide};
use soundness::Phase;

// An absent endpoint is empty; an absent or closing one has no abort.
fn status(tables: &Tables, e: usize) -> bool
    requires { e ≤ 63 }
    ensures { result ≡ status_test (endpoint_at tables.now Part.Status e) tables.now e }
{
    let status = words::endpoint(tables, Part::Status, e);
    let aborting = words::endpoint(tables, Part::Aborting, e);
    if status == wide::MISSING {
        let q = ENDPOINT_QUEUES + e;
        return (words::wide(tables, Link::Head(q)) == wide::NOBODY) & (aborting == wide::NO_ABORT);
    }
    if status == wide::LIVE {
        return true;
    }
    (status == wide::CLOSING) & (aborting == wide::NO_ABORT)
}

// No abort, or one of a badge in range.
fn abort(tables: &Tables, e: usize) -> bool
    requires { e ≤ 63 }
    ensures { result ≡ abort_test (endpoint_at tables.now Part.Aborting e) tables.now e }
{
    let aborting = words::endpoint(tables, Part::Aborting, e);
    let badge = words::endpoint(tables, Part::Aborted, e);
    let cursor = words::endpoint(tables, Part::Cursor, e);
    let end = words::endpoint(tables, Part::End, e);
    if aborting == wide::NO_ABORT {
        return (badge == 0) & (cursor == wide::NOBODY) & (end == wide::NOBODY);
    }
    if wide::ABORTING < aborting {
        return false;
    }
    (badge < wide::BADGES) & ((cursor == wide::NOBODY) == (end == wide::NOBODY))
}

// The place that all in the queue must have: that of its first.
fn kind(tables: &Tables, e: usize) -> usize
    requires { e ≤ 63 }
    ensures { result ≡ kind_in tables.now e }
{
    let q = ENDPOINT_QUEUES + e;
    let y = words::wide(tables, Link::Head(q));
    if y == wide::NOBODY {
        return wide::SENDING + e;
    }
    if wide::LAST_LINK < y {
        return 0;
    }
    words::thread(tables, Field::Place, y - wide::LINK)
}

// The badge that may not stand outside the marks, if there is one.
fn banned(tables: &Tables, e: usize, k: usize) -> usize
    requires { e ≤ 63 }
    ensures { result ≡ banned_of tables.now e k }
{
    let aborting = words::endpoint(tables, Part::Aborting, e) == wide::ABORTING;
    if aborting & (k == wide::SENDING + e) {
        return words::endpoint(tables, Part::Aborted, e);
    }
    wide::BADGES
}

// Thread t, met behind link x in a queue of place k: it is linked back, has the place, and may stand where it does.
fn stands(tables: &Tables, k: usize, b: usize, x: usize, t: usize, f: Phase) -> bool
    requires { t ≤ 255 }
    ensures { result ≡ stands_behind tables.now k b f x t }
{
    let prev = words::wide(tables, Link::Prev(t));
    let place = words::thread(tables, Field::Place, t);
    let badge = words::thread(tables, Field::Badge, t);
    (prev == x) & (place == k) & crate::phases::allowed(f, b, badge)
}

fn waiters(tables: &Tables, scratch: &mut Scratch, e: usize, k: usize) -> bool
    requires { e ≤ 63 }
    ensures { Follows scratch.old scratch.new (met tables.now (endpoint_queue e))
        (waiters_as tables.now e k) result }
{
    let q = ENDPOINT_QUEUES + e;
    let cursor = words::endpoint(tables, Part::Cursor, e);
    let end = words::endpoint(tables, Part::End, e);
    let banned = banned(tables, e, k);
    let mut f = Phase::Ahead;
    let mut x: usize = wide::NOBODY;
    let mut y = words::wide(tables, Link::Head(q));
    for _ in 0..THREADS + 1 {
        if y == wide::NOBODY {
            return (words::wide(tables, Link::Tail(q)) == x) & crate::phases::complete(f, cursor);
        }
        if wide::LAST_LINK < y {
            return false;
        }
        let t = y - wide::LINK;
        let here = crate::phases::enter(f, cursor, y);
        if !stands(tables, k, banned, x, t, here) {
            return false;
        }
        crate::met::meet(scratch, t);
        f = crate::phases::leave(here, end, y);
        x = y;
        y = words::wide(tables, Link::Next(t));
    }
    false
}

// All send, or all receive and there are no marks.
fn fits(tables: &Tables, e: usize, k: usize) -> bool
    requires { e ≤ 63 }
    ensures { result ≡ kind_fits tables.now e k }
{
    (k == wide::SENDING + e)
        | ((k == wide::RECEIVING + e) & (words::endpoint(tables, Part::Cursor, e) == wide::NOBODY))
}

fn endpoint(tables: &Tables, scratch: &mut Scratch, e: usize) -> bool
    requires { e ≤ 63 }
    ensures { Follows scratch.old scratch.new (met tables.now (endpoint_queue e))
        (endpoint_test tables.now e) result }
{
    let k = kind(tables, e);
    if !(status(tables, e) & abort(tables, e) & fits(tables, e, k)) {
        return false;
    }
    waiters(tables, scratch, e, k)
}

pub fn endpoints(tables: &Tables, scratch: &mut Scratch) -> bool
    requires { scratch.old ≡ met_in (met_below 256 tables.now) }
    ensures { FollowsAll scratch.new (met_below 320 tables.now)
        (all 64 (endpoint_test tables.now)) result }
{
    for e in 0..ENDPOINTS {
        if !endpoint(tables, scratch, e) {
            return false;
        }
    }
    true
}

// What the clauses on a page read of its tables: where threads stand, their priorities, who owns nothing, and which thread runs.
// An id is taken modulo the size of its table, so that every function is total; the limits are tested first.
#![tactic(auto)]

ghost use Rattle.std.specs.Prelude.{◌≡◌, max, not};
ghost use Rattle.units.specs.Units.{outside};
ghost use Rattle.rules.specs.State.{same};
ghost use Rattle.rules.specs.Page.{where_of, runner_from};
ghost use Rattle.rules.specs.Sound.{implies};
ghost use Rattle.sound_standing.specs.Standing.{row_at, kind_of, stands_of, ceiling_in, priorities_in, owns_nothing_in, anyone_in, threads_in, top_in};

use choice::larger;
use limits::{FOR_MUTEX, MUTEXES, NONE, ON_CONDITION, READY, RUNNING, THREAD_ROWS, THREADS};
use page::{ThreadRow, ThreadRows};
use std::array;
use value_effects::{MutexTable, ceiling_for};

// The priority of each thread.
pub type Priorities = [u8; THREAD_ROWS];

// Whether the second is true if the first is.
pub fn implied(x: bool, y: bool) -> bool
    ensures { result ≡ implies x y }
{
    !x || y
}

// Whether a number is from low to high.
pub fn within(low: u8, high: u8, x: u8) -> bool
    ensures { result ≡ not (outside low high x) }
{
    low <= x && x <= high
}

// The kind of a thread state: 1, 2, 3, and 4 for every other number.
pub fn kind(state: u8) -> u8
    ensures { result ≡ kind_of state }
{
    if state == READY {
        return READY;
    }
    if state == RUNNING {
        return RUNNING;
    }
    if state == FOR_MUTEX {
        return FOR_MUTEX;
    }
    ON_CONDITION
}

// Whether the thread of a row stands where this state and object say.
pub fn stands(row: ThreadRow, state: u8, object: u8) -> bool
    ensures { result ≡ same (stands_of row) (where_of state object) }
{
    let here = kind(row.state);
    let there = kind(state);
    if here != there {
        return false;
    }
    if here < FOR_MUTEX {
        return true;
    }
    row.object == object
}

// The largest ceiling of the first n mutexes that thread t owns, or 0.
fn highest_ceiling(mutexes: MutexTable, n: u8, t: u8) -> u8
    ensures { result ≡ ceiling_in mutexes n t }
{
    (0..n)
        .map(|m| ceiling_for(mutexes[(m % MUTEXES) as usize], t))
        .fold(0, |best, ceiling| ceiling.max(best))
}

// The priority of thread t, with the first n mutexes.
fn priority_of(rows: ThreadRows, mutexes: MutexTable, n: u8, t: u8) -> u8
    ensures { result ≡ max (row_at rows t).base (ceiling_in mutexes n t) }
{
    let row = rows[(t % THREADS) as usize];
    row.base.max(highest_ceiling(mutexes, n, t))
}

// The priority of each thread, with the first n mutexes.
pub fn priorities_of(rows: ThreadRows, mutexes: MutexTable, n: u8) -> Priorities
    ensures { result ≡ priorities_in rows mutexes n }
{
    array::from_fn(|t| priority_of(rows, mutexes, n, t as u8))
}

// Whether thread t owns none of the first n mutexes.
pub fn owns_nothing(mutexes: MutexTable, n: u8, t: u8) -> bool
    ensures { result ≡ owns_nothing_in mutexes n t }
{
    (0..n).all(|m| mutexes[(m % MUTEXES) as usize].owner != t)
}

// Whether any of the first n threads stands where this state and object say.
pub fn anyone(rows: ThreadRows, n: u8, state: u8, object: u8) -> bool
    ensures { result ≡ anyone_in rows n (where_of state object) }
{
    (0..n).any(|t| stands(rows[(t % THREADS) as usize], state, object))
}

// The first of the first n threads that runs, 255 for none.
pub fn runner_of(rows: ThreadRows, n: u8) -> u8
    ensures { result ≡ runner_from 0 (threads_in rows n) }
{
    (0..n)
        .find(|&t| stands(rows[(t % THREADS) as usize], RUNNING, NONE))
        .unwrap_or(NONE)
}

// The priority of thread t with the first `count` mutexes; its base is 0 if it is none of the first n threads.
pub fn top_of(rows: ThreadRows, n: u8, mutexes: MutexTable, count: u8, t: u8) -> u8
    ensures { result ≡ top_in rows n mutexes count t }
{
    let ceiling = highest_ceiling(mutexes, count, t);
    if n <= t {
        return larger(0, ceiling);
    }
    let i = (t % THREADS) as usize;
    let row = rows[i];
    larger(row.base, ceiling)
}

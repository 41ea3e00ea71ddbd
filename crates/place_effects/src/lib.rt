// What the calls on mutexes and condition variables do to the scheduler, in place.
// An id is taken modulo the size of its table, so that every function is total; callers hand in ids that exist.
#![tactic(auto)]

ghost use Rattle.std.specs.Prelude.{◌≡◌};
ghost use Rattle.value_effects.specs.Effects.{highest_in, settle_model, own_model, recount_model, create_model, pass_model, acquire_model, release_model, wait_model, wake_model, signal_model, broadcast_model, create_mutex_model};
ghost use Rattle.refusals.specs.Verdicts.{owned_in};
ghost use Rattle.place_tables.specs.Cells.{scheduler_in};
ghost use Rattle.place_effects.specs.Leaving.{signalled_in};

use limits::{CONDITIONS, MOST_COUNT, MUTEXES, NONE, PRIORITIES, READY, THREADS};
use place_queues::{arrive, depart, head, wait_for, wait_on};
use place_tables::{
    CONDITION_SETS, Cells, MUTEX_SETS, highest_at, mutex_at, put_mutex, put_thread, put_tie,
    running_at, thread_at, tie_at,
};
use refusals::owned_one;
use value_effects::{Mutex, SIGNALS, ceiling_for};
use value_tables::Thread;

// The largest ceiling of the mutexes that thread t owns, or 0.
fn highest_ceiling(cells: &Cells, t: u8) -> u8
    ensures { result ≡ highest_in (scheduler_in cells.now).mutexes t }
{
    let mut best = 0u8;
    for i in 0..MUTEXES {
        let row = mutex_at(cells, i);
        best = best.max(ceiling_for(row, t));
    }
    best
}

// How many mutexes thread t owns.
pub fn owned_by(cells: &Cells, t: u8) -> u8
    ensures { result ≡ owned_in (scheduler_in cells.now).mutexes t }
{
    let mut owned = 0u8;
    for i in 0..MUTEXES {
        let row = mutex_at(cells, i);
        owned += owned_one(row, t);
    }
    owned
}

// The stored priority of thread t is that of its base and the ceilings that it owns; 32 or more is no thread.
fn settle(cells: &mut Cells, t: u8)
    ensures { scheduler_in cells.new ≡ settle_model (scheduler_in cells.old) t }
{
    if THREADS <= t {
        return;
    }
    let ceiling = highest_ceiling(cells, t);
    let row = thread_at(cells, t);
    let priority = row.base.max(ceiling);
    put_thread(cells, t, Thread { priority, ..row });
}

// Mutex m has owner t and count n, and the priorities of its old and new owner follow.
fn own(cells: &mut Cells, m: u8, t: u8, n: u8)
    ensures { scheduler_in cells.new ≡ own_model (scheduler_in cells.old) m t n }
{
    let row = mutex_at(cells, m);
    let owned = Mutex {
        owner: t,
        count: n,
        ..row
    };
    put_mutex(cells, m, owned);
    settle(cells, row.owner);
    settle(cells, t);
}

// Mutex m has count n.
fn recount(cells: &mut Cells, m: u8, n: u8)
    ensures { scheduler_in cells.new ≡ recount_model (scheduler_in cells.old) m n }
{
    let row = mutex_at(cells, m);
    put_mutex(cells, m, Mutex { count: n, ..row });
}

// Mutex m goes to its highest, earliest waiter, with count 1, and that thread is ready; with no waiter it is free.
fn pass(cells: &mut Cells, m: u8)
    ensures { scheduler_in cells.new ≡ pass_model (scheduler_in cells.old) m }
{
    let first = head(cells, m % MUTEXES + MUTEX_SETS);
    if PRIORITIES <= first.priority {
        own(cells, m, NONE, 0);
        return;
    }
    depart(cells, m % MUTEXES + MUTEX_SETS, first.priority);
    own(cells, m, first.thread, 1);
    arrive(cells, first.thread);
}

// The caller takes mutex m: again, from nobody, or it waits.
pub fn acquire(cells: &mut Cells, m: u8)
    ensures { scheduler_in cells.new ≡ acquire_model (scheduler_in cells.old) m }
{
    let row = mutex_at(cells, m);
    let caller = running_at(cells);
    if row.owner == caller {
        recount(cells, m, row.count % MOST_COUNT + 1);
        return;
    }
    if row.owner == NONE {
        own(cells, m, caller, 1);
        return;
    }
    wait_for(cells, caller, m);
}

// A count above 1 falls by one, else the mutex is passed on.
pub fn release(cells: &mut Cells, m: u8)
    ensures { scheduler_in cells.new ≡ release_model (scheduler_in cells.old) m }
{
    let row = mutex_at(cells, m);
    if 1 < row.count {
        recount(cells, m, row.count - 1);
        return;
    }
    pass(cells, m);
}

// Mutex m is released, then the caller waits on condition variable c, which is tied to m.
pub fn wait(cells: &mut Cells, c: u8, m: u8)
    ensures { scheduler_in cells.new ≡ wait_model (scheduler_in cells.old) c m }
{
    let caller = running_at(cells);
    release(cells, m);
    put_tie(cells, c, m);
    wait_on(cells, caller, c);
}

// Thread t, which has left a condition variable tied to m, becomes its owner and is ready, or waits for it.
fn wake(cells: &mut Cells, m: u8, t: u8)
    ensures { scheduler_in cells.new ≡ wake_model (scheduler_in cells.old) m t }
{
    let mutex = mutex_at(cells, m);
    if mutex.owner == NONE {
        own(cells, m, t, 1);
        arrive(cells, t);
        return;
    }
    wait_for(cells, t, m);
}

// The highest, earliest waiter leaves condition variable c; the tie ends with the last. How many left: 1 or 0.
pub fn signal(cells: &mut Cells, c: u8) -> u16
    ensures { signalled_in cells.new result ≡ signal_model (scheduler_in cells.old) c }
{
    let first = head(cells, c % CONDITIONS + CONDITION_SETS);
    if PRIORITIES <= first.priority {
        return 0;
    }
    depart(cells, c % CONDITIONS + CONDITION_SETS, first.priority);
    let m = tie_at(cells, c);
    let best = highest_at(cells, c % CONDITIONS + CONDITION_SETS);
    if PRIORITIES <= best {
        put_tie(cells, c, NONE);
    }
    wake(cells, m, first.thread);
    1
}

// Signals until none waits; 32 are enough for all threads. How many left.
pub fn broadcast(cells: &mut Cells, c: u8) -> u16
    ensures { signalled_in cells.new result ≡ broadcast_model 32 0 (scheduler_in cells.old) c }
{
    for left in 0..SIGNALS {
        let one = signal(cells, c);
        if one == 0 {
            return left;
        }
    }
    SIGNALS
}

// Thread t is new, of a base, and ready.
pub fn create(cells: &mut Cells, t: u8, base: u8)
    ensures { scheduler_in cells.new ≡ create_model (scheduler_in cells.old) t base }
{
    let row = Thread {
        base,
        priority: base,
        state: READY,
        object: NONE,
    };
    put_thread(cells, t, row);
    arrive(cells, t);
}

// Mutex m is new, of a ceiling, unowned.
pub fn create_mutex(cells: &mut Cells, m: u8, ceiling: u8)
    ensures { scheduler_in cells.new ≡ create_mutex_model (scheduler_in cells.old) m ceiling }
{
    let row = Mutex {
        ceiling,
        owner: NONE,
        count: 0,
    };
    put_mutex(cells, m, row);
}

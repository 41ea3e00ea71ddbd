// How threads move, in place: they join and leave queues, run, and wait. Set 0 holds the ready queues, sets 1 to
// 16 those of the mutexes, sets 17 to 32 those of the condition variables.
// An id is taken modulo the size of its table, and a thread of 32 or more joins no queue, so that every function is total; callers hand in ids that exist.
#![tactic(auto)]

ghost use Rattle.std.specs.Prelude.{◌≡◌, ◌%◌};
ghost use Rattle.queue.specs.Linking.{ahead_model};
ghost use Rattle.value_tables.specs.Tables.{head_model};
ghost use Rattle.value_effects.specs.Effects.{ready_model, wait_for_model, wait_on_model, run_first_model, choose_next_model};
ghost use Rattle.place_tables.specs.Cells.{scheduler_in};
ghost use Rattle.place_tables.specs.Changes.{set_numbered};
ghost use Rattle.place_queues.specs.Joining.{links_kept, joined, joined_in_front, departed, removed, stood, arrived_in_front};

use limits::{
    CONDITIONS, FOR_MUTEX, MUTEXES, NONE, ON_CONDITION, PRIORITIES, READY, RUNNING, THREADS,
};
use place_tables::{
    CONDITION_SETS, Cells, MUTEX_SETS, READY_SET, highest_at, link_at, put_link, put_queue,
    put_running, put_thread, queue_at, running_at, thread_at,
};
use queue::Queue;
use value_tables::{Head, Thread};

// Thread t arrives at the back of the queue of priority p in set n.
fn join(cells: &mut Cells, n: u8, p: u8, t: u8)
    ensures { scheduler_in cells.new ≡ joined (scheduler_in cells.old) (n % 33) p t }
{
    if THREADS <= t {
        return;
    }
    let queue = queue_at(cells, n, p);
    if queue.last < THREADS {
        put_link(cells, queue.last, t);
        put_queue(cells, n, p, Queue { last: t, ..queue });
        return;
    }
    put_queue(cells, n, p, Queue { first: t, last: t });
}

// Thread t arrives at the front of the queue of priority p in set n.
fn join_front(cells: &mut Cells, n: u8, p: u8, t: u8)
    ensures { scheduler_in cells.new ≡ joined_in_front (scheduler_in cells.old) (n % 33) p t }
{
    if THREADS <= t {
        return;
    }
    let queue = queue_at(cells, n, p);
    put_link(cells, t, queue.first);
    if queue.first < THREADS {
        put_queue(cells, n, p, Queue { first: t, ..queue });
        return;
    }
    put_queue(cells, n, p, Queue { first: t, last: t });
}

// The first of the queue of priority p leaves set n.
pub fn depart(cells: &mut Cells, n: u8, p: u8)
    ensures { scheduler_in cells.new ≡ departed (scheduler_in cells.old) (n % 33) p }
{
    let queue = queue_at(cells, n, p);
    if THREADS <= queue.first {
        return;
    }
    let next = link_at(cells, queue.first);
    put_link(cells, queue.first, NONE);
    if next < THREADS {
        let shorter = Queue {
            first: next,
            ..queue
        };
        put_queue(cells, n, p, shorter);
        return;
    }
    put_queue(cells, n, p, Queue::empty());
}

// The thread that t follows on the way from the first along at most 32 links, 255 for none.
fn ahead(cells: &Cells, first: u8, t: u8) -> u8
    ensures { result ≡ ahead_model (links_kept (scheduler_in cells.now)).next 32 first t }
{
    let mut met = first;
    for _ in 0..THREADS {
        if THREADS <= met {
            return NONE;
        }
        let after = link_at(cells, met);
        if after == t {
            return met;
        }
        met = after;
    }
    NONE
}

// Thread t leaves the queue of priority p in set n from wherever it stands there; where it does not, nothing changes.
pub fn remove(cells: &mut Cells, n: u8, p: u8, t: u8)
    ensures { scheduler_in cells.new ≡ removed (scheduler_in cells.old) (n % 33) p t }
{
    if THREADS <= t {
        return;
    }
    let queue = queue_at(cells, n, p);
    if queue.first == t {
        depart(cells, n, p);
        return;
    }
    let ahead = ahead(cells, queue.first, t);
    if THREADS <= ahead {
        return;
    }
    let after = link_at(cells, t);
    put_link(cells, ahead, after);
    put_link(cells, t, NONE);
    if queue.last == t {
        let shorter = Queue {
            last: ahead,
            ..queue
        };
        put_queue(cells, n, p, shorter);
    }
}

// The first of the highest non-empty queue of set n.
pub fn head(cells: &Cells, n: u8) -> Head
    ensures { result ≡ head_model (set_numbered (scheduler_in cells.now) (n % 33)) }
{
    let priority = highest_at(cells, n);
    let queue = queue_at(cells, n, priority);
    Head {
        priority,
        thread: queue.first,
    }
}

// Thread t stands elsewhere.
fn stand(cells: &mut Cells, t: u8, state: u8, object: u8)
    ensures { scheduler_in cells.new ≡ stood (scheduler_in cells.old) t state object }
{
    let row = thread_at(cells, t);
    let moved = Thread {
        state,
        object,
        ..row
    };
    put_thread(cells, t, moved);
}

// Thread t is ready, at the back of the queue of its priority.
pub fn arrive(cells: &mut Cells, t: u8)
    ensures { scheduler_in cells.new ≡ ready_model (scheduler_in cells.old) t }
{
    let row = thread_at(cells, t);
    join(cells, READY_SET, row.priority, t);
    stand(cells, t, READY, NONE);
}

// Thread t is ready, at the front of the queue of its priority; three lines, as `arrive` has, are no longer than a closure for the join.
fn arrive_in_front(cells: &mut Cells, t: u8)
    ensures { scheduler_in cells.new ≡ arrived_in_front (scheduler_in cells.old) t }
{
    let row = thread_at(cells, t);
    join_front(cells, READY_SET, row.priority, t);
    stand(cells, t, READY, NONE);
}

// The first of the highest ready queue runs; where none is ready, nothing changes.
pub fn run_first(cells: &mut Cells)
    ensures { scheduler_in cells.new ≡ run_first_model (scheduler_in cells.old) }
{
    let first = head(cells, READY_SET);
    if PRIORITIES <= first.priority {
        return;
    }
    depart(cells, READY_SET, first.priority);
    stand(cells, first.thread, RUNNING, NONE);
    put_running(cells, first.thread);
}

// The next thread is chosen: the rule of three.
pub fn choose_next(cells: &mut Cells, tick: bool)
    ensures { scheduler_in cells.new ≡ choose_next_model (scheduler_in cells.old) tick }
{
    let running = running_at(cells);
    let row = thread_at(cells, running);
    if FOR_MUTEX <= row.state {
        run_first(cells);
        return;
    }
    let best = highest_at(cells, READY_SET);
    if PRIORITIES <= best {
        return;
    }
    if row.priority < best {
        arrive_in_front(cells, running);
        run_first(cells);
        return;
    }
    if tick && row.priority == best {
        arrive(cells, running);
        run_first(cells);
    }
}

// Thread t waits for mutex m.
pub fn wait_for(cells: &mut Cells, t: u8, m: u8)
    ensures { scheduler_in cells.new ≡ wait_for_model (scheduler_in cells.old) t m }
{
    let row = thread_at(cells, t);
    join(cells, m % MUTEXES + MUTEX_SETS, row.priority, t);
    stand(cells, t, FOR_MUTEX, m);
}

// Thread t waits on condition variable c; three lines, as `wait_for` has, are no longer than a shared body with its five parameters.
pub fn wait_on(cells: &mut Cells, t: u8, c: u8)
    ensures { scheduler_in cells.new ≡ wait_on_model (scheduler_in cells.old) t c }
{
    let row = thread_at(cells, t);
    join(cells, c % CONDITIONS + CONDITION_SETS, row.priority, t);
    stand(cells, t, ON_CONDITION, c);
}

// The scheduler's tables in one array of bytes, changed in place: what is lent is not copied, as a struct by value is at every level.
// specs/Cells.antt says where each table stands. Set 0 holds the ready queues, sets 1 to 16 those of the mutexes, sets 17 to 32 those of the condition variables.
// An id is taken modulo the size of its table, so that every function is total; callers hand in ids that exist.
#![tactic(auto)]

ghost use Rattle.std.specs.Prelude.{◌≡◌, ◌%◌};
ghost use Rattle.queue.specs.Linking.{highest_model};
ghost use Rattle.value_tables.specs.Tables.{row_of};
ghost use Rattle.value_effects.specs.Effects.{mutex_of, with_mutex, with_tie};
ghost use Rattle.place_tables.specs.Cells.{scheduler_in};
ghost use Rattle.place_tables.specs.Changes.{with_running, with_thread, with_link, link_of, tie_of, set_numbered, queue_numbered, with_queue};

use entries::{load, store};
use limits::{CONDITIONS, MUTEXES, PRIORITIES, THREADS};
use queue::Queue;
use value_effects::Mutex;
use value_tables::Thread;

// The bytes of the array.
pub const CELLS: usize = 1281;

// The array.
pub type Cells = [u8; CELLS];

// The bytes of a thread's row; those rows stand from 0 on.
const THREAD_BYTES: usize = 4;

// Where the links stand.
const LINKS_FROM: usize = 128;

// Where the sets of queues stand.
const QUEUES_FROM: usize = 160;

// The bytes of a set of queues.
const SET_BYTES: usize = 32;

// The bytes of a queue.
const QUEUE_BYTES: usize = 2;

// Where the rows of the mutexes stand.
const MUTEXES_FROM: usize = 1216;

// The bytes of a mutex's row.
const MUTEX_BYTES: usize = 3;

// Where the ties stand.
const TIES_FROM: usize = 1264;

// Where the running thread stands.
const RUNNING_AT: usize = 1280;

// The sets of queues.
const ALL_SETS: u8 = 33;

// The set of the ready queues.
pub const READY_SET: u8 = 0;

// The set of mutex 0.
pub const MUTEX_SETS: u8 = 1;

// The set of condition variable 0.
pub const CONDITION_SETS: u8 = 17;

// The row of thread t.
pub fn thread_at(cells: &Cells, t: u8) -> Thread
    ensures { result ≡ row_of (scheduler_in cells.now).threads t }
{
    let i = (t % THREADS) as usize * THREAD_BYTES;
    Thread {
        base: load(cells, i, 0),
        priority: load(cells, i + 1, 0),
        state: load(cells, i + 2, 0),
        object: load(cells, i + 3, 0),
    }
}

// Thread t has another row.
pub fn put_thread(cells: &mut Cells, t: u8, row: Thread)
    ensures { scheduler_in cells.new ≡ with_thread (scheduler_in cells.old) t row }
{
    let i = (t % THREADS) as usize * THREAD_BYTES;
    store(cells, i, row.base);
    store(cells, i + 1, row.priority);
    store(cells, i + 2, row.state);
    store(cells, i + 3, row.object);
}

// The thread that follows thread t in its queue.
pub fn link_at(cells: &Cells, t: u8) -> u8
    ensures { result ≡ link_of (scheduler_in cells.now) t }
{
    let i = LINKS_FROM + (t % THREADS) as usize;
    load(cells, i, 0)
}

// Another thread follows thread t.
pub fn put_link(cells: &mut Cells, t: u8, next: u8)
    ensures { scheduler_in cells.new ≡ with_link (scheduler_in cells.old) t next }
{
    let i = LINKS_FROM + (t % THREADS) as usize;
    store(cells, i, next);
}

// The queue of priority p in set n; past 15 an empty one.
pub fn queue_at(cells: &Cells, n: u8, p: u8) -> Queue
    ensures { result ≡ queue_numbered (scheduler_in cells.now) (n % 33) p }
{
    if PRIORITIES <= p {
        return Queue::empty();
    }
    let i = QUEUES_FROM + (n % ALL_SETS) as usize * SET_BYTES + p as usize * QUEUE_BYTES;
    Queue {
        first: load(cells, i, 0),
        last: load(cells, i + 1, 0),
    }
}

// Another queue of priority p in set n; past 15 nothing is stored.
pub fn put_queue(cells: &mut Cells, n: u8, p: u8, queue: Queue)
    ensures { scheduler_in cells.new ≡ with_queue (scheduler_in cells.old) (n % 33) p queue }
{
    if PRIORITIES <= p {
        return;
    }
    let i = QUEUES_FROM + (n % ALL_SETS) as usize * SET_BYTES + p as usize * QUEUE_BYTES;
    store(cells, i, queue.first);
    store(cells, i + 1, queue.last);
}

// The row of mutex m.
pub fn mutex_at(cells: &Cells, m: u8) -> Mutex
    ensures { result ≡ mutex_of (scheduler_in cells.now) m }
{
    let i = MUTEXES_FROM + (m % MUTEXES) as usize * MUTEX_BYTES;
    Mutex {
        ceiling: load(cells, i, 0),
        owner: load(cells, i + 1, 0),
        count: load(cells, i + 2, 0),
    }
}

// Mutex m has another row.
pub fn put_mutex(cells: &mut Cells, m: u8, row: Mutex)
    ensures { scheduler_in cells.new ≡ with_mutex (scheduler_in cells.old) m row }
{
    let i = MUTEXES_FROM + (m % MUTEXES) as usize * MUTEX_BYTES;
    store(cells, i, row.ceiling);
    store(cells, i + 1, row.owner);
    store(cells, i + 2, row.count);
}

// The mutex that condition variable c is tied to, 255 for none.
pub fn tie_at(cells: &Cells, c: u8) -> u8
    ensures { result ≡ tie_of (scheduler_in cells.now) c }
{
    let i = TIES_FROM + (c % CONDITIONS) as usize;
    load(cells, i, 0)
}

// Condition variable c is tied to mutex m, 255 for none.
pub fn put_tie(cells: &mut Cells, c: u8, m: u8)
    ensures { scheduler_in cells.new ≡ with_tie (scheduler_in cells.old) c m }
{
    let i = TIES_FROM + (c % CONDITIONS) as usize;
    store(cells, i, m);
}

// The running thread, 255 for none.
pub fn running_at(cells: &Cells) -> u8
    ensures { result ≡ (scheduler_in cells.now).running }
{
    load(cells, RUNNING_AT, 0)
}

// Another thread runs.
pub fn put_running(cells: &mut Cells, t: u8)
    ensures { scheduler_in cells.new ≡ with_running (scheduler_in cells.old) t }
{
    store(cells, RUNNING_AT, t);
}

// The highest priority in set n whose queue is not empty, 16 for none.
pub fn highest_at(cells: &Cells, n: u8) -> u8
    ensures { result ≡ highest_model (set_numbered (scheduler_in cells.now) (n % 33)) }
{
    for p in (0..PRIORITIES).rev() {
        let queue = queue_at(cells, n, p);
        if queue.first < THREADS {
            return p;
        }
    }
    PRIORITIES
}

// The scheduler: threads, mutexes, condition variables and their sets of queues, and what the calls do to them, by value: a row or a set is copied out,
// changed and stored back, and the scheduler handed on.
// An id is taken modulo the size of its table, so that every function is total; callers hand in ids that exist.
#![tactic(auto)]

ghost use Rattle.std.specs.Prelude.{◌≡◌};
ghost use Rattle.value_effects.specs.Effects.{ceiling_for, highest_in, settle_model, own_model, recount_model, wait_for_model, wait_on_model, create_model, pass_model, acquire_model, release_model, wait_model, wake_model, signal_model, broadcast_model, run_first_model, choose_next_model, create_mutex_model, thread_row_model};

use choice::larger;
use limits::{
    CONDITION_ROWS, CONDITIONS, FOR_MUTEX, MOST_COUNT, MUTEX_ROWS, MUTEXES, NONE, ON_CONDITION,
    PRIORITIES, READY, THREADS,
};
use queue::Queues;
use value_tables::{Thread, Threads, highest_first};

// A mutex's row: its ceiling, its owner, 255 for none, and its count.
#[derive(Clone, Copy)]
pub struct Mutex {
    pub ceiling: u8,
    pub owner: u8,
    pub count: u8,
}

// The row of a mutex that does not exist yet: nobody owns it.
pub const FREE_MUTEX: Mutex = Mutex {
    ceiling: 0,
    owner: NONE,
    count: 0,
};

// A row for each mutex.
pub type MutexTable = [Mutex; MUTEX_ROWS];

// The mutexes that there can be, and the condition variables: as many of each.
pub const OBJECTS: u8 = MUTEXES;

// The length of a table with one entry for each.
pub const SETS: usize = OBJECTS as usize;

// A set of queues for each mutex, or for each condition variable.
pub type Sets = [Queues; SETS];

// The mutex that each condition variable is tied to.
pub type Ties = [u8; CONDITION_ROWS];

// The signals that are enough for all threads.
pub const SIGNALS: u16 = THREADS as u16;

// The threads; the mutexes, and who waits for each; the mutex that each condition variable is tied to, 255 for none, and who waits on each;
// the running thread, 255 for none.
#[derive(Clone, Copy)]
pub struct Scheduler {
    pub threads: Threads,
    pub mutexes: MutexTable,
    pub formutex: Sets,
    pub ties: Ties,
    pub oncondition: Sets,
    pub running: u8,
}

// The scheduler after signals, and how many threads left the condition variable.
#[derive(Clone, Copy)]
pub struct Signalled {
    pub scheduler: Scheduler,
    pub left: u16,
}

// The ceiling of a mutex that thread t owns, or 0.
pub fn ceiling_for(row: Mutex, t: u8) -> u8
    ensures { result ≡ ceiling_for row t }
{
    if row.owner == t {
        return row.ceiling;
    }
    0
}

// The largest ceiling of the mutexes that thread t owns, or 0.
pub fn highest_ceiling(mutexes: MutexTable, t: u8) -> u8
    ensures { result ≡ highest_in mutexes t }
{
    let mut best = 0;
    for row in &mutexes {
        best = larger(best, ceiling_for(*row, t));
    }
    best
}

impl Scheduler {
    // The stored priority of thread t is that of its base and the ceilings that it owns; 32 or more is no thread.
    fn settle(mut self, t: u8) -> Scheduler
        ensures { result ≡ settle_model self t }
    {
        if THREADS <= t {
            return self;
        }
        let i = t as usize;
        let threads = self.threads;
        let row = threads.rows[i];
        let mutexes = self.mutexes;
        let ceiling = highest_ceiling(mutexes, t);
        let priority = larger(row.base, ceiling);
        let lifted = threads.lift(t, priority);
        self.threads = lifted;
        self
    }

    // Mutex m has owner t and count n, and the priorities of its old and new owner follow.
    fn own(mut self, m: u8, t: u8, n: u8) -> Scheduler
        ensures { result ≡ own_model self m t n }
    {
        let i = (m % MUTEXES) as usize;
        let row = self.mutexes[i];
        let old = row.owner;
        self.mutexes[i] = Mutex {
            owner: t,
            count: n,
            ..row
        };
        let settled = self.settle(old);
        settled.settle(t)
    }

    // Mutex m has count n.
    fn recount(mut self, m: u8, n: u8) -> Scheduler
        ensures { result ≡ recount_model self m n }
    {
        let i = (m % MUTEXES) as usize;
        let row = self.mutexes[i];
        self.mutexes[i] = Mutex { count: n, ..row };
        self
    }

    // Thread t waits for mutex m.
    pub fn wait_for(mut self, t: u8, m: u8) -> Scheduler
        ensures { result ≡ wait_for_model self t m }
    {
        let i = (m % MUTEXES) as usize;
        let set = self.formutex[i];
        let threads = self.threads;
        let waiting = threads.wait(set, t, FOR_MUTEX, m);
        let after = waiting.threads;
        let joined = waiting.set;
        self.formutex[i] = joined;
        self.threads = after;
        self
    }

    // Thread t waits on condition variable c.
    // It stands beside `wait_for`, since one body for both would take its table as a closure, in more lines.
    pub fn wait_on(mut self, t: u8, c: u8) -> Scheduler
        ensures { result ≡ wait_on_model self t c }
    {
        let i = (c % CONDITIONS) as usize;
        let set = self.oncondition[i];
        let threads = self.threads;
        let waiting = threads.wait(set, t, ON_CONDITION, c);
        let after = waiting.threads;
        let joined = waiting.set;
        self.oncondition[i] = joined;
        self.threads = after;
        self
    }

    // Thread t is new, of a base, and ready.
    pub fn create(mut self, t: u8, base: u8) -> Scheduler
        ensures { result ≡ create_model self t base }
    {
        let i = (t % THREADS) as usize;
        let mut threads = self.threads;
        threads.rows[i] = Thread {
            base,
            priority: base,
            state: READY,
            object: NONE,
        };
        let arrived = threads.arrive(t);
        self.threads = arrived;
        self
    }

    // Mutex m goes to its highest, earliest waiter, with count 1, and that thread is ready; with no waiter it is free.
    fn pass(mut self, m: u8) -> Scheduler
        ensures { result ≡ pass_model self m }
    {
        let i = (m % MUTEXES) as usize;
        let set = self.formutex[i];
        let first = highest_first(set);
        if PRIORITIES <= first.priority {
            return self.own(m, NONE, 0);
        }
        let threads = self.threads;
        let left = threads.leave(set, first.priority);
        let after = left.threads;
        let rest = left.set;
        self.formutex[i] = rest;
        self.threads = after;
        let mut owned = self.own(m, first.thread, 1);
        let woken = owned.threads;
        let ready = woken.arrive(first.thread);
        owned.threads = ready;
        owned
    }

    // The caller takes mutex m: again, from nobody, or it waits.
    pub fn acquire(self, m: u8) -> Scheduler
        ensures { result ≡ acquire_model self m }
    {
        let i = (m % MUTEXES) as usize;
        let row = self.mutexes[i];
        let caller = self.running;
        if row.owner == caller {
            return self.recount(m, row.count % MOST_COUNT + 1);
        }
        if row.owner == NONE {
            return self.own(m, caller, 1);
        }
        self.wait_for(caller, m)
    }

    // A count above 1 falls by one, else the mutex is passed on.
    pub fn release(self, m: u8) -> Scheduler
        ensures { result ≡ release_model self m }
    {
        let i = (m % MUTEXES) as usize;
        let row = self.mutexes[i];
        if 1 < row.count {
            return self.recount(m, row.count - 1);
        }
        self.pass(m)
    }

    // Mutex m is released, then the caller waits on condition variable c, which is tied to m.
    pub fn wait(self, c: u8, m: u8) -> Scheduler
        ensures { result ≡ wait_model self c m }
    {
        let caller = self.running;
        let mut released = self.release(m);
        let i = (c % CONDITIONS) as usize;
        released.ties[i] = m;
        released.wait_on(caller, c)
    }

    // Thread t, which has left a condition variable tied to m, becomes its owner and is ready, or waits for it.
    fn wake(self, m: u8, t: u8) -> Scheduler
        ensures { result ≡ wake_model self m t }
    {
        let i = (m % MUTEXES) as usize;
        let row = self.mutexes[i];
        if row.owner == NONE {
            let mut owned = self.own(m, t, 1);
            let threads = owned.threads;
            let ready = threads.arrive(t);
            owned.threads = ready;
            return owned;
        }
        self.wait_for(t, m)
    }

    // The highest, earliest waiter leaves condition variable c; the tie ends with the last.
    pub fn signal(mut self, c: u8) -> Signalled
        ensures { result ≡ signal_model self c }
    {
        let i = (c % CONDITIONS) as usize;
        let set = self.oncondition[i];
        let first = highest_first(set);
        if PRIORITIES <= first.priority {
            return Signalled {
                scheduler: self,
                left: 0,
            };
        }
        let threads = self.threads;
        let left = threads.leave(set, first.priority);
        let after = left.threads;
        let rest = left.set;
        self.oncondition[i] = rest;
        self.threads = after;
        let m = self.ties[i];
        let next = highest_first(rest);
        if PRIORITIES <= next.priority {
            self.ties[i] = NONE;
        }
        let scheduler = self.wake(m, first.thread);
        Signalled { scheduler, left: 1 }
    }

    // Mutex m is new, of a ceiling, unowned.
    pub fn create_mutex(mut self, m: u8, ceiling: u8) -> Scheduler
        ensures { result ≡ create_mutex_model self m ceiling }
    {
        let i = (m % MUTEXES) as usize;
        self.mutexes[i] = Mutex {
            ceiling,
            owner: NONE,
            count: 0,
        };
        self
    }

    // The row of thread t.
    pub fn row(self, t: u8) -> Thread
        ensures { result ≡ thread_row_model self t }
    {
        let threads = self.threads;
        let i = (t % THREADS) as usize;
        threads.rows[i]
    }

    // The first of the highest ready queue runs.
    pub fn run_first(mut self) -> Scheduler
        ensures { result ≡ run_first_model self }
    {
        let threads = self.threads;
        let ran = threads.run_first(self.running);
        let after = ran.threads;
        self.threads = after;
        self.running = ran.running;
        self
    }

    // The next thread is chosen.
    pub fn choose_next(mut self, tick: bool) -> Scheduler
        ensures { result ≡ choose_next_model self tick }
    {
        let threads = self.threads;
        let ran = threads.choose_next(self.running, tick);
        let after = ran.threads;
        self.threads = after;
        self.running = ran.running;
        self
    }

    // Signals until none waits; 32 are enough for all threads.
    pub fn broadcast(self, c: u8) -> Signalled
        ensures { result ≡ broadcast_model 32 0 self c }
    {
        let mut scheduler = self;
        for left in 0..SIGNALS {
            let signalled = scheduler.signal(c);
            if signalled.left == 0 {
                return Signalled { scheduler, left };
            }
            scheduler = signalled.scheduler;
        }
        Signalled {
            scheduler,
            left: SIGNALS,
        }
    }
}

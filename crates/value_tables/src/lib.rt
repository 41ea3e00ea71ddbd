// The parts of the kernel that threads stand in: a set of queues with the links, and the threads with their links and ready queues; and how a thread
// becomes ready, waits, leaves a set and runs. A function takes these values, copies out what it changes, stores it back and hands them on.
// An id of a thread is taken modulo 32, and one of 32 or more joins no queue, so that every function is total; callers hand in ids below 32.
#![tactic(auto)]

ghost use Rattle.std.specs.Prelude.{◌≡◌};
ghost use Rattle.value_tables.specs.Tables.{joined, join_model, join_front_model, depart_model, remove_from_model, head_model, stand_model, lift_model, arrive_model, arrive_in_front_model, run_first_model, choose_next_model, wait_model, leave_model_in, remove_model_in};

use limits::{FOR_MUTEX, NONE, PRIORITIES, READY, RUNNING, THREAD_ROWS, THREADS};
use queue::{Linked, Links, Queues};

// Links, and one set of queues.
#[derive(Clone, Copy)]
pub struct Joined {
    pub links: Links,
    pub set: Queues,
}

// The first of the highest non-empty queue of a set, with its priority; 16 and 255 where all are empty.
#[derive(Clone, Copy)]
pub struct Head {
    pub priority: u8,
    pub thread: u8,
}

// A thread's row: its base priority, its present priority, where it stands (1 ready, 2 running, 3 mutex, 4 condition variable) and
// the object waited for, 255 for none. A kernel with any other byte there is refused, so the state is no enum.
#[derive(Clone, Copy)]
pub struct Thread {
    pub base: u8,
    pub priority: u8,
    pub state: u8,
    pub object: u8,
}

// The row of a thread that does not exist yet: it stands in no queue, as the running thread does.
pub const BLANK_THREAD: Thread = Thread {
    base: 0,
    priority: 0,
    state: RUNNING,
    object: NONE,
};

// A row for each thread.
pub type ThreadTable = [Thread; THREAD_ROWS];

// The threads, their links, and the ready queues.
#[derive(Clone, Copy)]
pub struct Threads {
    pub rows: ThreadTable,
    pub links: Links,
    pub ready: Queues,
}

// The threads, and the one that runs.
#[derive(Clone, Copy)]
pub struct Ran {
    pub threads: Threads,
    pub running: u8,
}

// The threads, and the set of queues of one mutex or condition variable.
#[derive(Clone, Copy)]
pub struct Waiting {
    pub threads: Threads,
    pub set: Queues,
}

// The links after a change, and the set with the queue of priority p after it.
fn with_linked(set: Queues, p: u8, linked: Linked) -> Joined
    ensures { result ≡ joined set p linked }
{
    Joined {
        links: linked.links,
        set: set.with_level(p, linked.queue),
    }
}

// Thread t arrives at the back of the queue of priority p.
#[tactic(auto, unfolding(crate::specs::Tables::join_model))]
pub fn join(links: Links, set: Queues, p: u8, t: u8) -> Joined
    ensures { result ≡ join_model links set p t }
{
    with_linked(set, p, links.back(set.level(p), t))
}

// Thread t arrives at the front of the queue of priority p.
#[tactic(auto, unfolding(crate::specs::Tables::join_front_model))]
fn join_front(links: Links, set: Queues, p: u8, t: u8) -> Joined
    ensures { result ≡ join_front_model links set p t }
{
    with_linked(set, p, links.front(set.level(p), t))
}

// The first of the queue of priority p leaves.
#[tactic(auto, unfolding(crate::specs::Tables::depart_model))]
fn depart(links: Links, set: Queues, p: u8) -> Joined
    ensures { result ≡ depart_model links set p }
{
    with_linked(set, p, links.leave(set.level(p)))
}

// Thread t leaves the queue of priority p from wherever it stands there.
#[tactic(auto, unfolding(crate::specs::Tables::remove_from_model))]
fn remove(links: Links, set: Queues, p: u8, t: u8) -> Joined
    ensures { result ≡ remove_from_model links set p t }
{
    with_linked(set, p, links.remove(set.level(p), t))
}

// The first of the highest non-empty queue.
pub fn highest_first(set: Queues) -> Head
    ensures { result ≡ head_model set }
{
    let priority = set.highest();
    let queue = set.level(priority);
    Head {
        priority,
        thread: queue.first,
    }
}

impl Threads {
    // Thread t stands elsewhere.
    #[tactic(auto, unfolding(crate::specs::Tables::stand_model))]
    pub fn stand(mut self, t: u8, state: u8, object: u8) -> Threads
        ensures { result ≡ stand_model self t state object }
    {
        let i = (t % THREADS) as usize;
        let row = self.rows[i];
        self.rows[i] = Thread {
            state,
            object,
            ..row
        };
        self
    }

    // Thread t has another priority.
    #[tactic(auto, unfolding(crate::specs::Tables::lift_model))]
    pub fn lift(mut self, t: u8, priority: u8) -> Threads
        ensures { result ≡ lift_model self t priority }
    {
        let i = (t % THREADS) as usize;
        let row = self.rows[i];
        self.rows[i] = Thread { priority, ..row };
        self
    }

    // Thread t is ready, at the back of the queue of its priority.
    pub fn arrive(mut self, t: u8) -> Threads
        ensures { result ≡ arrive_model self t }
    {
        let i = (t % THREADS) as usize;
        let row = self.rows[i];
        let joined = join(self.links, self.ready, row.priority, t);
        let links = joined.links;
        let ready = joined.set;
        self.links = links;
        self.ready = ready;
        self.stand(t, READY, NONE)
    }

    // Thread t is ready, at the front of the queue of its priority.
    // It stands beside `arrive`, since one body for both would take the join as a closure, in more lines.
    fn arrive_in_front(mut self, t: u8) -> Threads
        ensures { result ≡ arrive_in_front_model self t }
    {
        let i = (t % THREADS) as usize;
        let row = self.rows[i];
        let joined = join_front(self.links, self.ready, row.priority, t);
        let links = joined.links;
        let ready = joined.set;
        self.links = links;
        self.ready = ready;
        self.stand(t, READY, NONE)
    }

    // Thread t waits in a set of queues, at the back of the queue of its priority.
    pub fn wait(mut self, set: Queues, t: u8, state: u8, object: u8) -> Waiting
        ensures { result ≡ wait_model self set t state object }
    {
        let i = (t % THREADS) as usize;
        let row = self.rows[i];
        let joined = join(self.links, set, row.priority, t);
        let links = joined.links;
        let after = joined.set;
        self.links = links;
        let threads = self.stand(t, state, object);
        Waiting {
            threads,
            set: after,
        }
    }

    // The first of the queue of priority p leaves a set of queues.
    pub fn leave(mut self, set: Queues, p: u8) -> Waiting
        ensures { result ≡ leave_model_in self set p }
    {
        let departed = depart(self.links, set, p);
        let links = departed.links;
        let after = departed.set;
        self.links = links;
        Waiting {
            threads: self,
            set: after,
        }
    }

    // Thread t leaves the queue of priority p in a set of queues from wherever it stands there.
    pub fn remove(mut self, set: Queues, p: u8, t: u8) -> Waiting
        ensures { result ≡ remove_model_in self set p t }
    {
        let removed = remove(self.links, set, p, t);
        let links = removed.links;
        let after = removed.set;
        self.links = links;
        Waiting {
            threads: self,
            set: after,
        }
    }

    // The first of the highest ready queue runs; where none is ready, nothing changes.
    pub fn run_first(mut self, running: u8) -> Ran
        ensures { result ≡ run_first_model self running }
    {
        let first = highest_first(self.ready);
        if PRIORITIES <= first.priority {
            return Ran {
                threads: self,
                running,
            };
        }
        let departed = depart(self.links, self.ready, first.priority);
        let links = departed.links;
        let ready = departed.set;
        self.links = links;
        self.ready = ready;
        let threads = self.stand(first.thread, RUNNING, NONE);
        Ran {
            threads,
            running: first.thread,
        }
    }

    // Who runs after an accepted call: the rule of three.
    pub fn choose_next(self, running: u8, tick: bool) -> Ran
        ensures { result ≡ choose_next_model self running tick }
    {
        let i = (running % THREADS) as usize;
        let row = self.rows[i];
        if FOR_MUTEX <= row.state {
            return self.run_first(running);
        }
        let first = highest_first(self.ready);
        if PRIORITIES <= first.priority {
            return Ran {
                threads: self,
                running,
            };
        }
        if row.priority < first.priority {
            let in_front = self.arrive_in_front(running);
            return in_front.run_first(running);
        }
        if tick {
            if row.priority == first.priority {
                let behind = self.arrive(running);
                return behind.run_first(running);
            }
        }
        Ran {
            threads: self,
            running,
        }
    }
}

// Queues of threads, linked by index: each queue has its first and its last thread, 255 for none, and all threads together
// have one array of links. An operation takes the links and one queue and hands both back.
// A thread's id or an end of 32 or more is no thread: nothing is stored there.
#![tactic(auto)]

ghost use Rattle.std.specs.Prelude.{◌≡◌};
ghost use Rattle.queue.specs.Words.{highest_bit, with_bit};
ghost use Rattle.queue.specs.Linking.{empty_queue, empty_links, empty_queues, back_model, front_model, leave_model, ahead_model, remove_model, level_model, with_level_model, highest_model};

use limits::{HIGHEST, LEVELS, NONE, PRIORITIES, THREAD_ROWS, THREADS};

// What follows each thread in its queue.
pub type Next = [u8; THREAD_ROWS];

// One queue for each priority.
pub type Levels = [Queue; LEVELS];

// The first and the last thread of a queue, 255 and 255 where it is empty.
#[derive(Clone, Copy)]
pub struct Queue {
    pub first: u8,
    pub last: u8,
}

// The thread that follows each thread in its queue, 255 for the last of a queue and for a thread that stands in none.
#[derive(Clone, Copy)]
pub struct Links {
    pub next: Next,
}

// What an operation hands back: the links, and the one queue that it was about.
#[derive(Clone, Copy)]
pub struct Linked {
    pub links: Links,
    pub queue: Queue,
}

// One queue for each of the 16 priorities.
#[derive(Clone, Copy)]
pub struct Queues {
    pub levels: Levels,
}

// The word with the bit of priority p as its queue is occupied or not, and each other bit as it was; past 15 the word as it was.
pub fn with_bit(word: u16, p: u8, occupied: bool) -> u16
    ensures { result ≡ with_bit word p occupied }
{
    if PRIORITIES <= p {
        return word;
    }
    let bit = 1u16 << p;
    if occupied {
        return word | bit;
    }
    word ^ (word & bit)
}

// The highest priority whose bit is set, 15 minus the leading zeros, 16 for none.
pub fn highest_bit(word: u16) -> u8
    ensures { result ≡ highest_bit word }
{
    if word == 0 {
        return PRIORITIES;
    }
    let zeros = u16::leading_zeros(word) as u8;
    HIGHEST - zeros
}

impl Queue {
    pub fn empty() -> Self
        ensures { result ≡ empty_queue }
    {
        Queue {
            first: NONE,
            last: NONE,
        }
    }
}

impl Links {
    // No thread stands in any queue.
    pub fn empty() -> Self
        ensures { result ≡ empty_links }
    {
        let next = [NONE; THREAD_ROWS];
        Links { next }
    }

    // Thread t arrives at the back.
    pub fn back(mut self, queue: Queue, t: u8) -> Linked
        ensures { result ≡ back_model self queue t }
    {
        if THREADS <= t {
            return Linked { links: self, queue };
        }
        let first = queue.first;
        let last = queue.last;
        if last < THREADS {
            let i = last as usize;
            self.next[i] = t;
            let queue = Queue { first, last: t };
            return Linked { links: self, queue };
        }
        let queue = Queue { first: t, last: t };
        Linked { links: self, queue }
    }

    // Thread t arrives at the front.
    pub fn front(mut self, queue: Queue, t: u8) -> Linked
        ensures { result ≡ front_model self queue t }
    {
        if THREADS <= t {
            return Linked { links: self, queue };
        }
        let first = queue.first;
        let last = queue.last;
        let i = t as usize;
        self.next[i] = first;
        if first < THREADS {
            let queue = Queue { first: t, last };
            return Linked { links: self, queue };
        }
        let queue = Queue { first: t, last: t };
        Linked { links: self, queue }
    }

    // The first thread leaves; an empty queue is left as it is.
    pub fn leave(mut self, queue: Queue) -> Linked
        ensures { result ≡ leave_model self queue }
    {
        let first = queue.first;
        let last = queue.last;
        if THREADS <= first {
            return Linked { links: self, queue };
        }
        let i = first as usize;
        let after = self.next[i];
        self.next[i] = NONE;
        if after < THREADS {
            let queue = Queue { first: after, last };
            return Linked { links: self, queue };
        }
        let queue = Queue::empty();
        Linked { links: self, queue }
    }

    // The thread that t follows on the way from the first along at most 32 links, 255 for none.
    fn ahead(self, first: u8, t: u8) -> u8
        ensures { result ≡ ahead_model self.next 32 first t }
    {
        let mut met = first;
        for passed in 0..THREADS {
            if THREADS <= met {
                return NONE;
            }
            let after = self.next[met as usize];
            if after == t {
                return met;
            }
            met = after;
        }
        NONE
    }

    // Thread t leaves from wherever it stands; where it does not stand in the queue nothing changes.
    pub fn remove(mut self, queue: Queue, t: u8) -> Linked
        ensures { result ≡ remove_model self queue t }
    {
        if THREADS <= t {
            return Linked { links: self, queue };
        }
        let first = queue.first;
        let last = queue.last;
        if first == t {
            return self.leave(queue);
        }
        let ahead = self.ahead(first, t);
        if THREADS <= ahead {
            return Linked { links: self, queue };
        }
        let i = ahead as usize;
        let j = t as usize;
        let after = self.next[j];
        self.next[i] = after;
        self.next[j] = NONE;
        if last == t {
            let queue = Queue { first, last: ahead };
            return Linked { links: self, queue };
        }
        Linked { links: self, queue }
    }
}

impl Queues {
    pub fn empty() -> Self
        ensures { result ≡ empty_queues }
    {
        let q = Queue::empty();
        let levels = [q; LEVELS];
        Queues { levels }
    }

    // The queue of priority p; past 15 an empty one.
    pub fn level(self, p: u8) -> Queue
        ensures { result ≡ level_model self p }
    {
        if p < PRIORITIES {
            let i = p as usize;
            return self.levels[i];
        }
        Queue::empty()
    }

    // The queue of priority p is q; past 15 nothing is stored.
    pub fn with_level(mut self, p: u8, q: Queue) -> Self
        ensures { result ≡ with_level_model self p q }
    {
        if p < PRIORITIES {
            let i = p as usize;
            self.levels[i] = q;
        }
        self
    }

    // The highest priority whose queue is not empty, 16 for none.
    pub fn highest(self) -> u8
        ensures { result ≡ highest_model self }
    {
        for passed in 0..PRIORITIES {
            let p = HIGHEST - passed;
            let q = self.levels[p as usize];
            if q.first < THREADS {
                return p;
            }
        }
        PRIORITIES
    }
}

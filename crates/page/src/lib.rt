// A page: what a saved record says, as plain rows of numbers. Rows past a table's count say nothing and are blank.
#![tactic(auto)]

ghost use Rattle.std.specs.Prelude.{◌≡◌, get_or};
ghost use Rattle.page.specs.Says.{no_thread_row, no_mutex_row, no_timer_row, page_for, empty_page};

use entries::load;
use limits::{CONDITION_ROWS, MUTEX_ROWS, NONE, RUNNING, STOPPED, THREAD_ROWS, TIMER_ROWS};
use units::Ticks;
use value_effects::{FREE_MUTEX, Mutex, MutexTable, Ties};

// A thread: its base priority, its state (1 ready, 2 running, 3 mutex, 4 condition variable), the object waited for or 255, and its place in its
// queue from 0. A record with any other byte there is refused, so the state is no enum.
#[derive(Clone, Copy)]
pub struct ThreadRow {
    pub base: u8,
    pub state: u8,
    pub object: u8,
    pub place: u8,
}

// A timer: its state (0 stopped, 1 one-shot, 2 periodic), its condition variable or 255, n, which is its length or a periodic one's repeat, and its ticks left.
// A record with any other byte there is refused, so the state is no enum.
#[derive(Clone, Copy)]
pub struct TimerRow {
    pub state: u8,
    pub condition: u8,
    pub length: Ticks,
    pub left: Ticks,
}

// The row of a thread past the count.
pub const BLANK_ROW: ThreadRow = ThreadRow {
    base: 0,
    state: RUNNING,
    object: NONE,
    place: 0,
};

// A row for each thread.
pub type ThreadRows = [ThreadRow; THREAD_ROWS];

// The row of a stopped timer, and of one past the count.
pub const STOPPED_ROW: TimerRow = TimerRow {
    state: STOPPED,
    condition: NONE,
    length: Ticks(0),
    left: Ticks(0),
};

// A row for each timer.
pub type TimerRows = [TimerRow; TIMER_ROWS];

// Whether started, the tick count, how many threads, mutexes, condition variables and timers there are, and their four tables.
#[derive(Clone, Copy)]
pub struct Page {
    pub started: bool,
    pub count: u32,
    pub threads: u8,
    pub mutexes: u8,
    pub conditions: u8,
    pub timers: u8,
    pub threadrows: ThreadRows,
    pub mutexrows: MutexTable,
    pub ties: Ties,
    pub timerrows: TimerRows,
}

// The row of thread t; past the table zeros.
pub fn thread_row(rows: ThreadRows, t: u8) -> ThreadRow
    ensures { result ≡ get_or rows t no_thread_row }
{
    let zeros = ThreadRow {
        base: 0,
        state: 0,
        object: 0,
        place: 0,
    };
    load(&rows, t as usize, zeros)
}

// The row of mutex m; past the table zeros.
pub fn mutex_row(rows: MutexTable, m: u8) -> Mutex
    ensures { result ≡ get_or rows m no_mutex_row }
{
    let zeros = Mutex {
        ceiling: 0,
        owner: 0,
        count: 0,
    };
    load(&rows, m as usize, zeros)
}

// The tie of condition variable c; past the table 0.
pub fn tie_row(ties: Ties, c: u8) -> u8
    ensures { result ≡ get_or ties c 0 }
{
    load(&ties, c as usize, 0)
}

// The row of timer t; past the table zeros.
pub fn timer_row(rows: TimerRows, t: u8) -> TimerRow
    ensures { result ≡ get_or rows t no_timer_row }
{
    let zeros = TimerRow {
        state: 0,
        condition: 0,
        length: Ticks(0),
        left: Ticks(0),
    };
    load(&rows, t as usize, zeros)
}

impl Page {
    // The page with no row at all.
    pub fn blank() -> Page
        ensures { result ≡ page_for empty_page }
    {
        let thread = BLANK_ROW;
        let threadrows = [thread; THREAD_ROWS];
        let free = FREE_MUTEX;
        let mutexrows = [free; MUTEX_ROWS];
        let ties = [NONE; CONDITION_ROWS];
        let stopped = STOPPED_ROW;
        let timerrows = [stopped; TIMER_ROWS];
        Page {
            started: false,
            count: 0,
            threads: 0,
            mutexes: 0,
            conditions: 0,
            timers: 0,
            threadrows,
            mutexrows,
            ties,
            timerrows,
        }
    }
}

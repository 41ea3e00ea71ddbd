// Document 01's numbers: how many of each thing there can be, what stands for none, and the states of threads and timers.
// A limit is a byte, as ids and counts are; a table with a row for each has its length besides.

// The threads that there can be; their ids are below.
pub const THREADS: u8 = 32;

// The length of a table of threads.
pub const THREAD_ROWS: usize = THREADS as usize;

// The priorities.
pub const PRIORITIES: u8 = 16;

// The highest priority.
pub const HIGHEST: u8 = PRIORITIES - 1;

// The length of a table with one entry for each priority.
pub const LEVELS: usize = PRIORITIES as usize;

// The mutexes that there can be.
pub const MUTEXES: u8 = 16;

// The length of a table of mutexes.
pub const MUTEX_ROWS: usize = MUTEXES as usize;

// The count that a mutex can have at most.
pub const MOST_COUNT: u8 = 255;

// The condition variables that there can be.
pub const CONDITIONS: u8 = 16;

// The length of a table of condition variables.
pub const CONDITION_ROWS: usize = CONDITIONS as usize;

// The timers that there can be.
pub const TIMERS: u8 = 32;

// The length of a table of timers.
pub const TIMER_ROWS: usize = TIMERS as usize;

// The numbers that the tick count passes through, from 0 on, before it is 0 again.
pub const TICK_COUNTS: u64 = 4294967296;

// What stands for no thread, and for no object.
pub const NONE: u8 = 255;

// What is given where nothing is.
pub const NOTHING: u16 = NONE as u16;

// The states are numbers and no enum, since a byte of a kernel or of a record may hold any number, and is then refused.

// The state of a thread that is ready.
pub const READY: u8 = 1;

// The state of the thread that runs.
pub const RUNNING: u8 = 2;

// The state of a thread that waits for a mutex; a thread of a smaller state waits for nothing.
pub const FOR_MUTEX: u8 = 3;

// The state of a thread that waits on a condition variable, the last of the four.
pub const ON_CONDITION: u8 = 4;

// The state of a timer that is stopped.
pub const STOPPED: u8 = 0;

// The state of a timer that expires once.
pub const ONE_SHOT: u8 = 1;

// The state of a timer that expires again and again, the last of the three.
pub const PERIODIC: u8 = 2;

// The page that a saved record holds, and whether the record is of right form: its counts fit, its states are among the document's, and it is,
// byte for byte, the record that is written of the page read from it.
#![tactic(auto)]

ghost use Rattle.std.specs.Prelude.{◌+◌, ◌≡◌, ◌&&◌, get_or};
ghost use Rattle.laws.specs.Lists.{tabulate};
ghost use Rattle.rules.specs.Page.{each_row, thread_formed, timer_formed, page_formed};
ghost use Rattle.record_bytes.specs.Record.{byte, word_at, record_of};
ghost use Rattle.page.specs.Says.{thread_said, timer_said, no_thread_row, no_timer_row, said, thread_for, mutex_for, timer_for};
ghost use Rattle.record_reading.specs.Rows.{thread_at, mutex_at, timer_at, thread_or, mutex_or, tie_or, timer_or, read_model, open_model, fitting, agree, same_bytes};

use entries::load;
use limits::{CONDITIONS, MUTEXES, NONE, ON_CONDITION, PERIODIC, READY, THREADS, TIMERS};
use page::{
    BLANK_ROW, Page, STOPPED_ROW, ThreadRow, ThreadRows, TimerRow, TimerRows, thread_row, timer_row,
};
use record_writing::{
    BYTE, CONDITION_COUNT, HEADER, LONGEST_RECORD, MUTEX_COUNT, ROW_BYTES, STARTED, THREAD_COUNT,
    TICKS_HIGH, TICKS_LOW, TIMER_BYTES, TIMER_COUNT, WORD, total, write,
};
use std::array;
use units::Ticks;
use value_effects::{FREE_MUTEX, Mutex, MutexTable, Ties};

// The bytes of a row, of 32 bits.
const ROW_STEP: u32 = ROW_BYTES as u32;

// The same, as an index.
const TIE_STEP: usize = ROW_BYTES as usize;

// The threads that there can be, as a count of the header.
const MOST_THREADS: u16 = THREADS as u16;

// The mutexes that there can be.
const MOST_MUTEXES: u16 = MUTEXES as u16;

// The condition variables that there can be.
const MOST_CONDITIONS: u16 = CONDITIONS as u16;

// The timers that there can be.
const MOST_TIMERS: u16 = TIMERS as u16;

// The byte at a place; past the end 0.
fn byte_at(bytes: &[u8], at: usize) -> u8
    ensures { result ≡ byte bytes.now at }
{
    load(bytes, at, 0)
}

// The number of 16 bits at a place, low byte first.
fn word_at(bytes: &[u8], at: u32) -> u16
    ensures { result ≡ word_at bytes.now at }
{
    let i = at as usize;
    let low = byte_at(bytes, i);
    let high = byte_at(bytes, i + 1);
    low as u16 + BYTE * (high as u16)
}

// The row of a thread at a place.
fn thread_at(bytes: &[u8], at: u32) -> ThreadRow
    ensures { result ≡ thread_for (thread_at bytes.now at) }
{
    let i = at as usize;
    let base = byte_at(bytes, i);
    let state = byte_at(bytes, i + 1);
    let object = byte_at(bytes, i + 2);
    let place = byte_at(bytes, i + 3);
    ThreadRow {
        base,
        state,
        object,
        place,
    }
}

// The row of a mutex at a place.
fn mutex_at(bytes: &[u8], at: u32) -> Mutex
    ensures { result ≡ mutex_for (mutex_at bytes.now at) }
{
    let i = at as usize;
    let ceiling = byte_at(bytes, i);
    let owner = byte_at(bytes, i + 1);
    let count = byte_at(bytes, i + 2);
    Mutex {
        ceiling,
        owner,
        count,
    }
}

// The row of a timer at a place.
fn timer_at(bytes: &[u8], at: u16, further: u16) -> TimerRow
    ensures { result ≡ timer_for (timer_at bytes.now (at + further)) }
{
    let i = at as u32 + further as u32;
    let state = byte_at(bytes, i as usize);
    let condition = byte_at(bytes, i as usize + 1);
    let length = word_at(bytes, i + 2);
    let left = word_at(bytes, i + 4);
    TimerRow {
        state,
        condition,
        length: Ticks(length),
        left: Ticks(left),
    }
}

// Each kind of row has a function of its own: one for all would take the reading and the blank row as a closure and a value, in more lines.

// Thread t of a table of n threads at a place; past them a blank row.
fn thread_or(bytes: &[u8], at: u16, n: u8, t: u8) -> ThreadRow
    ensures { result ≡ thread_or bytes.now at n t }
{
    if t < n {
        return thread_at(bytes, at as u32 + ROW_STEP * (t as u32));
    }
    BLANK_ROW
}

// Mutex m of a table of n mutexes at a place; past them a free one.
fn mutex_or(bytes: &[u8], at: u16, n: u8, m: u8) -> Mutex
    ensures { result ≡ mutex_or bytes.now at n m }
{
    if m < n {
        return mutex_at(bytes, at as u32 + ROW_STEP * (m as u32));
    }
    FREE_MUTEX
}

// Condition variable c of a table of n at a place; past them one that is tied to none.
fn tie_or(bytes: &[u8], at: u16, n: u8, c: u8) -> u8
    ensures { result ≡ tie_or bytes.now at n c }
{
    if c < n {
        return byte_at(bytes, at as usize + TIE_STEP * (c as usize));
    }
    NONE
}

// Timer i of a table of n timers at a place; past them a stopped one.
fn timer_or(bytes: &[u8], at: u16, n: u8, i: u8) -> TimerRow
    ensures { result ≡ timer_or bytes.now at n i }
{
    if i < n {
        return timer_at(bytes, at, TIMER_BYTES * (i as u16));
    }
    STOPPED_ROW
}

// A table of n threads.
fn read_threads(bytes: &[u8], at: u16, n: u8) -> ThreadRows
    ensures { result ≡ tabulate 32 (thread_or bytes.now at n) }
{
    array::from_fn(|t| thread_or(bytes, at, n, t as u8))
}

// A table of n mutexes.
fn read_mutexes(bytes: &[u8], at: u16, n: u8) -> MutexTable
    ensures { result ≡ tabulate 16 (mutex_or bytes.now at n) }
{
    array::from_fn(|m| mutex_or(bytes, at, n, m as u8))
}

// A table of n condition variables.
fn read_ties(bytes: &[u8], at: u16, n: u8) -> Ties
    ensures { result ≡ tabulate 16 (tie_or bytes.now at n) }
{
    array::from_fn(|c| tie_or(bytes, at, n, c as u8))
}

// A table of n timers.
fn read_timers(bytes: &[u8], at: u16, n: u8) -> TimerRows
    ensures { result ≡ tabulate 32 (timer_or bytes.now at n) }
{
    array::from_fn(|t| timer_or(bytes, at, n, t as u8))
}

// The page of so many threads, mutexes, condition variables and timers, whose tables follow the header without gaps.
fn read(bytes: &[u8], threads: u8, mutexes: u8, conditions: u8, timers: u8) -> Page
    ensures { result ≡ read_model bytes.now threads mutexes conditions timers }
{
    let mutexes_at = HEADER + ROW_BYTES * (threads as u16);
    let conditions_at = mutexes_at + ROW_BYTES * (mutexes as u16);
    let timers_at = conditions_at + ROW_BYTES * (conditions as u16);
    let started = word_at(bytes, STARTED);
    let low = word_at(bytes, TICKS_LOW);
    let high = word_at(bytes, TICKS_HIGH);
    let threadrows = read_threads(bytes, HEADER, threads);
    let mutexrows = read_mutexes(bytes, mutexes_at, mutexes);
    let ties = read_ties(bytes, conditions_at, conditions);
    let timerrows = read_timers(bytes, timers_at, timers);
    Page {
        started: started == 1,
        count: low as u32 + WORD * (high as u32),
        threads,
        mutexes,
        conditions,
        timers,
        threadrows,
        mutexrows,
        ties,
        timerrows,
    }
}

// A thread state is 1 to 4.
fn thread_formed(row: ThreadRow) -> bool
    ensures { result ≡ thread_formed (thread_said row) }
{
    READY <= row.state && row.state <= ON_CONDITION
}

// The states of n threads are among the document's.
fn threads_formed(rows: ThreadRows, n: u8) -> bool
    ensures { result ≡ each_row thread_formed (tabulate n (λ t. thread_said (get_or rows t no_thread_row))) }
{
    (0..n).all(|t| thread_formed(thread_row(rows, t)))
}

// The states of n timers are among the document's.
fn timers_formed(rows: TimerRows, n: u8) -> bool
    ensures { result ≡ each_row timer_formed (tabulate n (λ i. timer_said (get_or rows i no_timer_row))) }
{
    (0..n).all(|i| timer_row(rows, i).state <= PERIODIC)
}

// The states of all threads and timers of a page are among the document's.
fn states_formed(page: Page) -> bool
    ensures { result ≡ page_formed (said page) }
{
    let threadrows = page.threadrows;
    let timerrows = page.timerrows;
    let threads = threads_formed(threadrows, page.threads);
    if !threads {
        return false;
    }
    timers_formed(timerrows, page.timers)
}

// Two buffers have the same first n bytes.
fn agree_first(one: &[u8], other: &[u8], n: usize) -> bool
    ensures { result ≡ agree n one.now other.now }
{
    (0..n).all(|i| byte_at(one, i) == byte_at(other, i))
}

// The bytes are the record of a page; no record is longer than 536 bytes.
fn is_record(bytes: &[u8], page: Page) -> bool
    ensures { result ≡ same_bytes bytes.now (record_of (said page)) }
{
    let length = total(page) as usize;
    if LONGEST_RECORD < length {
        return false;
    }
    if bytes.len() != length {
        return false;
    }
    let mut record = [0u8; LONGEST_RECORD];
    write(page, &mut record);
    agree_first(bytes, &record, length)
}

// The states of a page are among the document's, and the bytes are its record.
fn is_formed(bytes: &[u8], page: Page) -> bool
    ensures { result ≡ (page_formed (said page) && same_bytes bytes.now (record_of (said page))) }
{
    let states = states_formed(page);
    if !states {
        return false;
    }
    is_record(bytes, page)
}

// The counts are within their limits.
fn counts_fit(threads: u16, mutexes: u16, conditions: u16, timers: u16) -> bool
    ensures { result ≡ fitting threads mutexes conditions timers }
{
    1 <= threads
        && threads <= MOST_THREADS
        && mutexes <= MOST_MUTEXES
        && conditions <= MOST_CONDITIONS
        && timers <= MOST_TIMERS
}

// The page that a buffer holds; none where the buffer is of wrong form.
pub fn open(bytes: &[u8]) -> Option<Page>
    ensures { result ≡ open_model bytes.now }
{
    let threads = word_at(bytes, THREAD_COUNT);
    let mutexes = word_at(bytes, MUTEX_COUNT);
    let conditions = word_at(bytes, CONDITION_COUNT);
    let timers = word_at(bytes, TIMER_COUNT);
    let fit = counts_fit(threads, mutexes, conditions, timers);
    if !fit {
        return None;
    }
    let page = read(
        bytes,
        (threads % BYTE) as u8,
        (mutexes % BYTE) as u8,
        (conditions % BYTE) as u8,
        (timers % BYTE) as u8,
    );
    let right = is_formed(bytes, page);
    if !right {
        return None;
    }
    Some(page)
}

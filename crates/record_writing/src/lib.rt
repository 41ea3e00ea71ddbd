// The saved record of a page, written into a lent buffer from its first byte on. What does not fit is not stored, and nothing past the record is
// touched.
#![tactic(auto)]

ghost use Rattle.std.specs.Prelude.{◌+◌, ◌*◌, ◌≡◌, [], ◌∷◌, ◌++◌, length};
ghost use Rattle.std.proofs.lemmas.List.Edits.{sets};
ghost use Rattle.record_bytes.specs.Record.{word, header_bytes, timer_bytes, record_of};
ghost use Rattle.page.specs.Says.{timer_said, said};
ghost use Rattle.record_writing.specs.Tables.{header_for, table_from, thread_row, mutex_row, tie_row, timer_row};

use entries::store;
use page::{Page, ThreadRows, TimerRow, TimerRows, mutex_row, thread_row, tie_row, timer_row};
use value_effects::{MutexTable, Ties};

// Where the header says how many threads there are.
pub const THREAD_COUNT: u32 = 0;

// Where it says how many mutexes.
pub const MUTEX_COUNT: u32 = 2;

// Where it says how many condition variables.
pub const CONDITION_COUNT: u32 = 4;

// Where it says how many timers.
pub const TIMER_COUNT: u32 = 6;

// Where it says where the table of threads begins, and then that of mutexes.
const THREADS_PLACE: u32 = 8;

// Where it says where the table of condition variables begins, and then that of timers.
const CONDITIONS_PLACE: u32 = 12;

// Where it says how long the record is.
const TOTAL: u32 = 16;

// Where it says whether started.
pub const STARTED: u32 = 18;

// Where the lower half of the tick count stands.
pub const TICKS_LOW: u32 = 20;

// Where its upper half stands.
pub const TICKS_HIGH: u32 = 22;

// The bytes of the header; the table of threads follows.
pub const HEADER: u16 = 24;

// The bytes of a row of threads, mutexes or condition variables.
pub const ROW_BYTES: u16 = 4;

// The same, of 32 bits.
const ROW_STEP: u32 = ROW_BYTES as u32;

// The bytes of a row of timers.
pub const TIMER_BYTES: u16 = 8;

// The same, of 32 bits.
const TIMER_STEP: u32 = TIMER_BYTES as u32;

// The bytes of the longest record.
pub const LONGEST_RECORD: usize = 536;

// The numbers that a byte can be.
pub const BYTE: u16 = 256;

// The numbers that 16 bits can be.
pub const WORD: u32 = 65536;

// Four bytes, one after the other; past the buffer's end nothing is stored.
fn put_four(buffer: &mut [u8], at: u32, a: u8, b: u8, c: u8, d: u8)
    ensures { buffer.new ≡ sets buffer.old at (a ∷ b ∷ c ∷ d ∷ []) }
{
    let i = at as usize;
    store(buffer, i, a);
    store(buffer, i + 1, b);
    store(buffer, i + 2, c);
    store(buffer, i + 3, d);
}

// Two numbers of 16 bits, low byte first.
fn put_words(buffer: &mut [u8], at: u32, x: u16, y: u16)
    ensures { buffer.new ≡ sets buffer.old at (word x ++ word y) }
{
    put_four(
        buffer,
        at,
        (x % BYTE) as u8,
        (x / BYTE) as u8,
        (y % BYTE) as u8,
        (y / BYTE) as u8,
    )
}

// The header, from the first byte on.
fn write_header(page: Page, buffer: &mut [u8])
    ensures { buffer.new ≡ sets buffer.old 0 (header_bytes (header_for page)) }
{
    let threads = page.threads as u16;
    let mutexes = page.mutexes as u16;
    let conditions = page.conditions as u16;
    let timers = page.timers as u16;
    let mutexes_at = HEADER + ROW_BYTES * threads;
    let conditions_at = mutexes_at + ROW_BYTES * mutexes;
    let timers_at = conditions_at + ROW_BYTES * conditions;
    let total = timers_at + TIMER_BYTES * timers;
    let started = u16::from(page.started);
    put_words(buffer, THREAD_COUNT, threads, mutexes);
    put_words(buffer, CONDITION_COUNT, conditions, timers);
    put_words(buffer, THREADS_PLACE, HEADER, mutexes_at);
    put_words(buffer, CONDITIONS_PLACE, conditions_at, timers_at);
    put_words(buffer, TOTAL, total, started);
    put_words(
        buffer,
        TICKS_LOW,
        (page.count % WORD) as u16,
        (page.count / WORD) as u16,
    );
}

// The table of threads, from a place on.
fn write_threads(rows: ThreadRows, count: u8, buffer: &mut [u8], at: u16)
    ensures { buffer.new ≡ sets buffer.old at (table_from (thread_row rows) count 0) }
{
    for t in 0..count {
        let row = thread_row(rows, t);
        put_four(
            buffer,
            at as u32 + ROW_STEP * (t as u32),
            row.base,
            row.state,
            row.object,
            row.place,
        );
    }
}

// The table of mutexes.
fn write_mutexes(rows: MutexTable, count: u8, buffer: &mut [u8], at: u16)
    ensures { buffer.new ≡ sets buffer.old at (table_from (mutex_row rows) count 0) }
{
    for m in 0..count {
        let row = mutex_row(rows, m);
        put_four(
            buffer,
            at as u32 + ROW_STEP * (m as u32),
            row.ceiling,
            row.owner,
            row.count,
            0,
        );
    }
}

// The table of condition variables.
fn write_ties(ties: Ties, count: u8, buffer: &mut [u8], at: u16)
    ensures { buffer.new ≡ sets buffer.old at (table_from (tie_row ties) count 0) }
{
    for c in 0..count {
        let tie = tie_row(ties, c);
        put_four(buffer, at as u32 + ROW_STEP * (c as u32), tie, 0, 0, 0);
    }
}

// The timer of id i in a table: its state, condition variable and length, then its ticks left and 0.
fn put_timer(buffer: &mut [u8], at: u16, i: u8, row: TimerRow)
    ensures { buffer.new ≡ sets buffer.old (at + 8 * i) (timer_bytes (timer_said row)) }
{
    let place = at as u32 + TIMER_STEP * (i as u32);
    let low = (row.length.0 % BYTE) as u8;
    let high = (row.length.0 / BYTE) as u8;
    put_four(buffer, place, row.state, row.condition, low, high);
    put_words(buffer, place + 4, row.left.0, 0);
}

// The table of timers.
fn write_timers(rows: TimerRows, count: u8, buffer: &mut [u8], at: u16)
    ensures { buffer.new ≡ sets buffer.old at (table_from (timer_row rows) count 0) }
{
    for i in 0..count {
        let row = timer_row(rows, i);
        put_timer(buffer, at, i, row);
    }
}

// The length of a page's record.
pub fn total(page: Page) -> u16
    ensures { result ≡ length (record_of (said page)) }
{
    HEADER
        + ROW_BYTES * (page.threads as u16)
        + ROW_BYTES * (page.mutexes as u16)
        + ROW_BYTES * (page.conditions as u16)
        + TIMER_BYTES * (page.timers as u16)
}

// The record, from the first byte on.
pub fn write(page: Page, buffer: &mut [u8])
    ensures { buffer.new ≡ sets buffer.old 0 (record_of (said page)) }
{
    let mutexes_at = HEADER + ROW_BYTES * (page.threads as u16);
    let conditions_at = mutexes_at + ROW_BYTES * (page.mutexes as u16);
    let timers_at = conditions_at + ROW_BYTES * (page.conditions as u16);
    let threadrows = page.threadrows;
    let mutexrows = page.mutexrows;
    let ties = page.ties;
    let timerrows = page.timerrows;
    write_header(page, buffer);
    write_threads(threadrows, page.threads, buffer, HEADER);
    write_mutexes(mutexrows, page.mutexes, buffer, mutexes_at);
    write_ties(ties, page.conditions, buffer, conditions_at);
    write_timers(timerrows, page.timers, buffer, timers_at);
}

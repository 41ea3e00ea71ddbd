// The clock in one array of words, changed in place: a word for each timer's row, and the tick count.
// specs/Clock.antt says how a row stands in a word. A timer's id is taken modulo 32, so that every function is total; callers hand in ids that exist.
#![tactic(auto)]

ghost use Rattle.std.specs.Prelude.{◌≡◌};
ghost use Rattle.place_clock.specs.Clock.{clock_in, clock_of, timer_of, with_timer, with_timers, with_count};

use entries::{load, store};
use limits::{TIMER_ROWS, TIMERS};
use std::array;
use units::Ticks;
use value_engine::{Timer, TimerTable};

// The words of the array.
pub const CLOCK_WORDS: usize = TIMER_ROWS + 1;

// The array.
pub type ClockWords = [u32; CLOCK_WORDS];

// Where the tick count stands, behind the timers.
const COUNT_AT: usize = TIMER_ROWS;

// What a timer's condition variable counts in its word, above the 8 bits of the state.
const CONDITION: u32 = 256;

// What its length counts, above the 8 bits of the condition variable.
const LENGTH: u32 = 65536;

// The row of timer id.
pub fn timer_at(clock: &ClockWords, id: u8) -> Timer
    ensures { result ≡ timer_of (clock_in clock.now) id }
{
    let i = (id % TIMERS) as usize;
    let word = load(clock, i, 0);
    let state = (word % CONDITION) as u8;
    let condition = (word % LENGTH / CONDITION) as u8;
    let length = (word / LENGTH) as u16;
    Timer {
        state,
        condition,
        length: Ticks(length),
    }
}

// Timer id has another row.
pub fn put_timer(clock: &mut ClockWords, id: u8, row: Timer)
    ensures { clock_in clock.new ≡ with_timer (clock_in clock.old) id row }
{
    let i = (id % TIMERS) as usize;
    let state = u32::from(row.state);
    let condition = u32::from(row.condition);
    let length = u32::from(row.length.0);
    store(clock, i, state + condition * CONDITION + length * LENGTH);
}

// The tick count.
pub fn count_at(clock: &ClockWords) -> u32
    ensures { result ≡ (clock_in clock.now).count }
{
    load(clock, COUNT_AT, 0)
}

// Another tick count.
pub fn put_count(clock: &mut ClockWords, count: u32)
    ensures { clock_in clock.new ≡ with_count (clock_in clock.old) count }
{
    store(clock, COUNT_AT, count);
}

// The rows of all timers.
pub fn timers_in(clock: &ClockWords) -> TimerTable
    ensures { result ≡ (clock_in clock.now).timers }
{
    array::from_fn(|id| timer_at(clock, id as u8))
}

// Other rows of all timers.
fn put_timers(clock: &mut ClockWords, rows: TimerTable)
    ensures { clock_in clock.new ≡ with_timers (clock_in clock.old) rows }
{
    for (id, row) in rows.iter().enumerate() {
        put_timer(clock, id as u8, *row);
    }
}

// The array in which these timers and this tick count stand.
pub fn clock_of(rows: TimerTable, count: u32) -> ClockWords
    ensures { clock_in result ≡ clock_of rows count }
{
    let mut clock = [0u32; CLOCK_WORDS];
    put_timers(&mut clock, rows);
    put_count(&mut clock, count);
    clock
}

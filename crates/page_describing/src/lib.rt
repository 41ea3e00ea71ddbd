// The page of an engine: what a saved record says of it, row by row, for any engine whatever. The engine stands in three lent arrays and is read there.
#![tactic(auto)]

ghost use Rattle.std.specs.Prelude.{◌≡◌, true};
ghost use Rattle.laws.specs.Lists.{tabulate};
ghost use Rattle.queue.specs.Linking.{read_model};
ghost use Rattle.rules.specs.State.{State};
ghost use Rattle.rules.specs.Sound.{sound};
ghost use Rattle.rules.specs.Page.{ahead, page_of};
ghost use Rattle.wheel.specs.Promise.{wheel_in};
ghost use Rattle.place_tables.specs.Cells.{scheduler_in};
ghost use Rattle.place_clock.specs.Clock.{clock_in, timer_of};
ghost use Rattle.place_timers.specs.Arrays.{engine_on};
ghost use Rattle.value_engine.specs.Stands.{engine_of};
ghost use Rattle.page.specs.Says.{page_for};
ghost use Rattle.page_describing.specs.Describing.{set_number, place_model, thread_model, timer_model, timer_at, describe_model};

use limits::{FOR_MUTEX, READY, RUNNING, THREADS};
use page::{Page, ThreadRow, ThreadRows, TimerRow, TimerRows};
use place_calls::Counts;
use place_clock::{ClockWords, count_at, timer_at};
use place_packing::{mutexes_in, ties_in};
use place_tables::{CONDITION_SETS, Cells, MUTEX_SETS, READY_SET, link_at, queue_at, thread_at};
use queue::Queue;
use std::array;
use value_effects::OBJECTS;
use value_tables::Thread;
use wheel::{WheelWords, left};

// How many stand ahead of thread t in a queue, along the links, at most 32 steps.
fn ahead_of(cells: &Cells, queue: Queue, t: u8) -> u8
    ensures { result ≡ ahead t (read_model (scheduler_in cells.now).threads.links queue) }
{
    let mut here = queue.first;
    for count in 0..THREADS {
        if THREADS <= here {
            return count;
        }
        if t == here {
            return count;
        }
        here = link_at(cells, here);
    }
    THREADS
}

// The number of the set of queues in which a thread with this row stands; its object is taken modulo 16.
fn set_of(row: Thread) -> u8
    ensures { result ≡ set_number row }
{
    if row.state == READY {
        return READY_SET;
    }
    if row.state == FOR_MUTEX {
        return MUTEX_SETS + row.object % OBJECTS;
    }
    CONDITION_SETS + row.object % OBJECTS
}

// The place of thread t with this row in its queue; the running thread's is 0.
fn place_of(cells: &Cells, row: Thread, t: u8) -> u8
    ensures { result ≡ place_model (scheduler_in cells.now) row t }
{
    if row.state == RUNNING {
        return 0;
    }
    let set = set_of(row);
    let queue = queue_at(cells, set, row.priority);
    ahead_of(cells, queue, t)
}

// The page's row of thread t. It takes its place from the queue, so it is no From of the engine's row.
fn thread_row(cells: &Cells, t: u8) -> ThreadRow
    ensures { result ≡ thread_model (scheduler_in cells.now) t }
{
    let row = thread_at(cells, t);
    let place = place_of(cells, row, t);
    ThreadRow {
        base: row.base,
        state: row.state,
        object: row.object,
        place,
    }
}

// The page's rows of all threads.
fn thread_rows(cells: &Cells) -> ThreadRows
    ensures { result ≡ tabulate 32 (thread_model (scheduler_in cells.now)) }
{
    array::from_fn(|t| thread_row(cells, t as u8))
}

// The page's row of timer id; its ticks left are the wheel's, so it is no From of the engine's row.
fn timer_row(clock: &ClockWords, wheel: &WheelWords, id: u8) -> TimerRow
    ensures { result ≡ timer_model (timer_of (clock_in clock.now) id) (wheel_in wheel.now) id }
{
    let row = timer_at(clock, id);
    let length = row.length;
    let left = left(wheel, id);
    TimerRow {
        state: row.state,
        condition: row.condition,
        length,
        left,
    }
}

// The page's rows of all timers.
fn timer_rows(clock: &ClockWords, wheel: &WheelWords) -> TimerRows
    ensures { result ≡ tabulate 32 (timer_at (clock_in clock.now).timers (wheel_in wheel.now)) }
{
    array::from_fn(|id| timer_row(clock, wheel, id as u8))
}

// The page of an engine that stands in three arrays; for the engine of a sound state the page of that state, blank past the counts.
pub fn describe(cells: &Cells, clock: &ClockWords, wheel: &WheelWords, counts: Counts) -> Page
    ensures always { result ≡ describe_model (engine_on cells.now clock.now wheel.now counts) }
    ensures means { (s : State) → sound s ≡ true → engine_on cells.now clock.now wheel.now counts ≡ engine_of s → result ≡ page_for (page_of s) }
{
    Page {
        started: counts.started,
        count: count_at(clock),
        threads: counts.threads,
        mutexes: counts.mutexes,
        conditions: counts.conditions,
        timers: counts.timercount,
        threadrows: thread_rows(cells),
        mutexrows: mutexes_in(cells),
        ties: ties_in(cells),
        timerrows: timer_rows(clock, wheel),
    }
}

// The engine that a page describes, in lent arrays and by value: its rows up to the counts, blank rows past them, each thread in its queue in the order of the places, and
// each timer on its spoke.
#![tactic(auto)]

ghost use Rattle.std.specs.Prelude.{min, ◌≡◌, true};
ghost use Rattle.wheel.specs.Promise.{wheel_in};
ghost use Rattle.rules.specs.Page.{page_formed, page_sound, described_by};
ghost use Rattle.value_engine.specs.Stands.{engine_of};
ghost use Rattle.place_tables.specs.Cells.{scheduler_in};
ghost use Rattle.place_clock.specs.Clock.{clock_in, clock_of};
ghost use Rattle.page.specs.Says.{said};
ghost use Rattle.page_building.specs.Building.{mutex_rows, tie_rows, running_row, thread_rows, timer_from, timer_rows, hung_below, runner_in, blank_scheduler, arrived_one, arrived_below, arrived_places, build_model};

use limits::{FOR_MUTEX, NONE, ON_CONDITION, READY, RUNNING, THREAD_ROWS, THREADS, TIMERS};
use page::{Page, ThreadRow, ThreadRows, TimerRow, TimerRows};
use place_calls::Counts;
use place_clock::{ClockWords, clock_of};
use place_packing::packed;
use place_queues::{arrive, wait_for, wait_on};
use place_step::engine_of;
use place_tables::Cells;
use queue::{Links, Queues};
use std::array;
use value_effects::{FREE_MUTEX, MutexTable, SETS, Scheduler, Ties, highest_ceiling};
use value_engine::{Engine, STOPPED_TIMER, Timer, TimerTable};
use value_tables::{BLANK_THREAD, Thread, ThreadTable, Threads};
use wheel::{WheelWords, empty_words, start};

// The rows of n mutexes.
fn mutex_rows(rows: MutexTable, n: u8) -> MutexTable
    ensures { result ≡ mutex_rows rows n }
{
    array::from_fn(|m| if m < n as usize { rows[m] } else { FREE_MUTEX })
}

// The ties of n condition variables.
fn tie_rows(rows: Ties, n: u8) -> Ties
    ensures { result ≡ tie_rows rows n }
{
    array::from_fn(|c| if c < n as usize { rows[c] } else { NONE })
}

// The row of thread t while it stands in no queue. Both kinds of row are other crates' types, so no From can be written here.
fn running_row(row: ThreadRow, mutexes: MutexTable, t: u8) -> Thread
    ensures { result ≡ running_row mutexes row t }
{
    let ceiling = highest_ceiling(mutexes, t);
    let priority = row.base.max(ceiling);
    Thread {
        base: row.base,
        priority,
        state: RUNNING,
        object: NONE,
    }
}

// The rows of n threads, none of which stands in a queue. A loop over those in use, since a table made entry by entry works out all 32.
fn thread_rows(rows: ThreadRows, mutexes: MutexTable, n: u8) -> ThreadTable
    ensures { result ≡ thread_rows rows mutexes n }
{
    let mut made = [BLANK_THREAD; THREAD_ROWS];
    for t in 0..n.min(THREADS) {
        made[t as usize] = running_row(rows[t as usize], mutexes, t);
    }
    made
}

// The engine's row of a timer; both are other crates' types, so no From can be written here.
fn timer_from(row: TimerRow) -> Timer
    ensures { result ≡ timer_from row }
{
    Timer {
        state: row.state,
        condition: row.condition,
        length: row.length,
    }
}

// The rows of n timers.
fn timer_rows(rows: TimerRows, n: u8) -> TimerTable
    ensures { result ≡ timer_rows rows n }
{
    array::from_fn(|id| {
        if id < n as usize {
            timer_from(rows[id])
        } else {
            STOPPED_TIMER
        }
    })
}

// The first n timers hung on a wheel in place, for their ticks left; a stopped one has 0 left and hangs nowhere.
fn hang(wheel: &mut WheelWords, rows: TimerRows, n: u8)
    ensures { wheel_in wheel.new ≡ hung_below rows (min n 32) (wheel_in wheel.old) }
{
    for id in 0..n.min(TIMERS) {
        let row = rows[id as usize];
        start(wheel, id, row.left);
    }
}

// The first of n threads that runs, 255 for none.
fn runner(rows: ThreadRows, n: u8) -> u8
    ensures { result ≡ runner_in rows (min n 32) 0 }
{
    for t in 0..n.min(THREADS) {
        let row = rows[t as usize];
        if row.state == RUNNING {
            return t;
        }
    }
    NONE
}

// The scheduler of a page while no thread stands in a queue.
fn blank_scheduler(page: Page) -> Scheduler
    ensures { result ≡ blank_scheduler page }
{
    let mutexrows = page.mutexrows;
    let mutexes = mutex_rows(mutexrows, page.mutexes);
    let tierows = page.ties;
    let ties = tie_rows(tierows, page.conditions);
    let threadrows = page.threadrows;
    let rows = thread_rows(threadrows, mutexes, page.threads);
    let running = runner(threadrows, page.threads);
    let links = Links::empty();
    let empty = Queues::empty();
    let threads = Threads {
        rows,
        links,
        ready: empty,
    };
    let formutex = [empty; SETS];
    let oncondition = [empty; SETS];
    Scheduler {
        threads,
        mutexes,
        formutex,
        ties,
        oncondition,
        running,
    }
}

// Thread t arrives where its row says, if its place is this one; one that runs stays as it is.
fn arrive_one(cells: &mut Cells, row: ThreadRow, place: u8, t: u8)
    ensures { scheduler_in cells.new ≡ arrived_one (scheduler_in cells.old) row place t }
{
    if row.place != place {
        return;
    }
    if row.state == READY {
        arrive(cells, t);
        return;
    }
    if row.state == FOR_MUTEX {
        wait_for(cells, t, row.object);
        return;
    }
    if row.state == ON_CONDITION {
        wait_on(cells, t, row.object);
    }
}

// Those of n threads whose place is this one arrive, in order of id.
fn arrive_place(cells: &mut Cells, rows: ThreadRows, n: u8, place: u8)
    ensures { scheduler_in cells.new ≡ arrived_below rows place (min n 32) (scheduler_in cells.old) }
{
    for t in 0..n.min(THREADS) {
        arrive_one(cells, rows[t as usize], place, t);
    }
}

// All n threads arrive, those of place 0 first, then those of place 1, and so on.
fn arrive_all(cells: &mut Cells, rows: ThreadRows, n: u8)
    ensures { scheduler_in cells.new ≡ arrived_places rows (min n 32) (min n 32) (scheduler_in cells.old) }
{
    for place in 0..n.min(THREADS) {
        arrive_place(cells, rows, n, place);
    }
}

// The scheduler of a page, in an array.
pub fn built_cells(page: Page) -> Cells
    ensures { scheduler_in result ≡ (build_model page).scheduler }
{
    let blank = blank_scheduler(page);
    let threadrows = page.threadrows;
    let mut cells = packed(blank);
    arrive_all(&mut cells, threadrows, page.threads);
    cells
}

// The timers and the tick count of a page, in an array.
pub fn built_clock(page: Page) -> ClockWords
    ensures { clock_in result ≡ clock_of (build_model page).timers (build_model page).count }
{
    let timerrows = page.timerrows;
    let timers = timer_rows(timerrows, page.timers);
    clock_of(timers, page.count)
}

// The wheel of a page, in an array.
pub fn built_wheel(page: Page) -> WheelWords
    ensures { wheel_in result ≡ (build_model page).wheel }
{
    let timerrows = page.timerrows;
    let mut wheel = empty_words(page.count);
    hang(&mut wheel, timerrows, page.timers);
    wheel
}

// The engine of a page; of a sound page it is the engine of the state that the page describes.
pub fn build(page: Page) -> Engine
    ensures always { result ≡ build_model page }
    ensures means { page_formed (said page) ≡ true → page_sound (said page) ≡ true → result ≡ engine_of (described_by (said page)) }
{
    let cells = built_cells(page);
    let clock = built_clock(page);
    let wheel = built_wheel(page);
    let counts = Counts {
        started: page.started,
        threads: page.threads,
        mutexes: page.mutexes,
        conditions: page.conditions,
        timercount: page.timers,
    };
    engine_of(&cells, &clock, &wheel, counts)
}

// Whether the threads of a page are sound, clause by clause: bases, thread 0, the runner, none ready above it, objects that exist, objects, places.
// An id is taken modulo the size of its table, so that every function is total; the limits are tested first.
#![tactic(auto)]

ghost use Rattle.std.specs.Prelude.{◌≡◌};
ghost use Rattle.sound_standing.specs.Standing.{stands_of};
ghost use Rattle.sound_threads.specs.Threads.{base_fits, bases_in, idle_in, runs_fits, runs_in, runner_fits, runner_in, not_above, none_above_in, exists_in, objects_exist_in, object_fits, object_codes_in, beside_in, counted_in, place_fits, places_in};

use limits::{FOR_MUTEX, HIGHEST, NONE, READY, RUNNING, THREADS};
use page::{ThreadRow, ThreadRows};
use sound_standing::{Priorities, implied, kind, owns_nothing, stands, within};
use value_effects::MutexTable;

// Base 0 for thread 0 and 1 to 15 for others.
fn base_fits(t: u8, base: u8) -> bool
    ensures { result ≡ base_fits t base }
{
    if t == 0 {
        return base == 0;
    }
    within(1, HIGHEST, base)
}

// The clause on bases.
pub fn bases_sound(threadrows: ThreadRows, threads: u8) -> bool
    ensures { result ≡ bases_in threadrows threads }
{
    (0..threads).all(|t| base_fits(t, threadrows[(t % THREADS) as usize].base))
}

// The clause on thread 0: it is ready or running and owns nothing.
pub fn idle_sound(threadrows: ThreadRows, mutexrows: MutexTable, mutexes: u8) -> bool
    ensures { result ≡ idle_in threadrows mutexrows mutexes }
{
    let row = threadrows[0];
    let active = kind(row.state) < FOR_MUTEX;
    let free = owns_nothing(mutexrows, mutexes, 0);
    active && free
}

// A thread runs exactly if it is the runner of a started page.
fn runs_fits(started: bool, runner: u8, t: u8, row: ThreadRow) -> bool
    ensures { result ≡ runs_fits started runner t row }
{
    let runs = stands(row, RUNNING, NONE);
    let ought = started && t == runner;
    runs == ought
}

// That of each thread.
fn runs_sound(started: bool, runner: u8, threadrows: ThreadRows, threads: u8) -> bool
    ensures { result ≡ runs_in started runner threadrows threads }
{
    (0..threads).all(|t| runs_fits(started, runner, t, threadrows[(t % THREADS) as usize]))
}

// The runner exists if started, and is none if stopped.
fn runner_fits(started: bool, runner: u8, threads: u8) -> bool
    ensures { result ≡ runner_fits started runner threads }
{
    if started {
        return runner < threads;
    }
    runner == NONE
}

// The clause on the runner: one thread runs if started, none if stopped.
pub fn runner_sound(started: bool, runner: u8, threadrows: ThreadRows, threads: u8) -> bool
    ensures { result ≡ runner_in started runner threadrows threads }
{
    let runs = runs_sound(started, runner, threadrows, threads);
    let fits = runner_fits(started, runner, threads);
    runs && fits
}

// A thread of this priority that is ready while started is not above the runner's.
fn not_above(started: bool, top: u8, row: ThreadRow, mine: u8) -> bool
    ensures { result ≡ not_above started top row mine }
{
    let ready = stands(row, READY, NONE);
    implied(started && ready, mine <= top)
}

// The clause that none is ready above the runner, whose priority is handed in.
pub fn none_above(
    started: bool,
    top: u8,
    threadrows: ThreadRows,
    threads: u8,
    priorities: Priorities,
) -> bool
    ensures { result ≡ none_above_in started top threadrows threads priorities }
{
    (0..threads).all(|t| {
        let i = (t % THREADS) as usize;
        not_above(started, top, threadrows[i], priorities[i])
    })
}

// The object that a thread waits for exists.
fn object_exists(mutexes: u8, conditions: u8, row: ThreadRow) -> bool
    ensures { result ≡ exists_in mutexes conditions (stands_of row) }
{
    let here = kind(row.state);
    if here < FOR_MUTEX {
        return true;
    }
    if here == FOR_MUTEX {
        return row.object < mutexes;
    }
    row.object < conditions
}

// The clause that objects exist.
pub fn objects_exist(threadrows: ThreadRows, threads: u8, mutexes: u8, conditions: u8) -> bool
    ensures { result ≡ objects_exist_in threadrows threads mutexes conditions }
{
    (0..threads).all(|t| object_exists(mutexes, conditions, threadrows[(t % THREADS) as usize]))
}

// The object of a thread that waits for none is 255.
fn object_fits(state: u8, object: u8) -> bool
    ensures { result ≡ object_fits state object }
{
    FOR_MUTEX <= state || object == NONE
}

// The clause on objects.
pub fn object_codes_sound(threadrows: ThreadRows, threads: u8) -> bool
    ensures { result ≡ object_codes_in threadrows threads }
{
    (0..threads).all(|t| {
        let row = threadrows[(t % THREADS) as usize];
        object_fits(row.state, row.object)
    })
}

// Whether a thread of another row and priority is in the queue of a thread of this row and priority.
#[tactic(auto, unfolding(crate::specs::Threads::beside_in))]
fn beside(row: ThreadRow, mine: u8, other: ThreadRow, its: u8) -> bool
    ensures { result ≡ beside_in row mine other its }
{
    stands(other, row.state, row.object) && its == mine
}

// As many of a thread's queue have a smaller place as its place says, and no other has the same.
fn counted(
    threadrows: ThreadRows,
    threads: u8,
    priorities: Priorities,
    row: ThreadRow,
    mine: u8,
) -> bool
    ensures { result ≡ counted_in threadrows threads priorities row mine }
{
    let mut smaller: u8 = 0;
    let mut equal: u8 = 0;
    for u in 0..threads {
        let i = (u % THREADS) as usize;
        let other = threadrows[i];
        let queued = beside(row, mine, other, priorities[i]);
        smaller += u8::from(queued && other.place < row.place);
        equal += u8::from(queued && other.place == row.place);
    }
    smaller == row.place && equal == 1
}

// The place of a thread is 0 if it runs, else as its queue has it.
fn place_fits(
    threadrows: ThreadRows,
    threads: u8,
    priorities: Priorities,
    row: ThreadRow,
    mine: u8,
) -> bool
    ensures { result ≡ place_fits threadrows threads priorities row mine }
{
    if stands(row, RUNNING, NONE) {
        return row.place == 0;
    }
    counted(threadrows, threads, priorities, row, mine)
}

// The clause on places.
pub fn places_sound(threadrows: ThreadRows, threads: u8, priorities: Priorities) -> bool
    ensures { result ≡ places_in threadrows threads priorities }
{
    (0..threads).all(|t| {
        let i = (t % THREADS) as usize;
        let row = threadrows[i];
        place_fits(threadrows, threads, priorities, row, priorities[i])
    })
}

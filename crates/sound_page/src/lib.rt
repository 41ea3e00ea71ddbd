// Whether a page is sound: the limits, and then the form of the states and the clauses in the definition's order, each a function of its own.
// An id is taken modulo the size of its table, so that every function is total; the limits are tested first.
#![tactic(auto)]

ghost use Rattle.std.specs.Prelude.{◌≡◌, ◌&&◌};
ghost use Rattle.rules.specs.Page.{page_formed, page_sound};
ghost use Rattle.page.specs.Says.{said};
ghost use Rattle.sound_page.specs.WholePage.{limits_in, threads_formed_in, timers_formed_in, form_in, all_ready_in, nothing_owned_in, no_timer_runs_in, rest_in};

use limits::{CONDITIONS, MUTEXES, NONE, ON_CONDITION, PERIODIC, READY, STOPPED, THREADS, TIMERS};
use page::{Page, ThreadRows, TimerRows};
use sound_objects::{ceilings_sound, conditions_sound, mutexes_sound, timers_sound};
use sound_standing::{priorities_of, runner_of, stands, top_of, within};
use sound_threads::{
    bases_sound, idle_sound, none_above, object_codes_sound, objects_exist, places_sound,
    runner_sound,
};
use value_effects::MutexTable;

// The limits, of the counts of the four tables; the tick count fits by its type.
pub fn limits_sound(threads: u8, mutexes: u8, conditions: u8, timers: u8) -> bool
    ensures { result ≡ limits_in threads mutexes conditions timers }
{
    within(1, THREADS, threads)
        && mutexes <= MUTEXES
        && conditions <= CONDITIONS
        && timers <= TIMERS
}

// The state of each thread is 1 to 4.
fn threads_formed(threadrows: ThreadRows, threads: u8) -> bool
    ensures { result ≡ threads_formed_in threadrows threads }
{
    (0..threads).all(|t| {
        let row = threadrows[(t % THREADS) as usize];
        within(READY, ON_CONDITION, row.state)
    })
}

// The state of each timer is at most 2.
fn timers_formed(timerrows: TimerRows, timers: u8) -> bool
    ensures { result ≡ timers_formed_in timerrows timers }
{
    (0..timers).all(|timer| timerrows[(timer % TIMERS) as usize].state <= PERIODIC)
}

// The form of the states.
pub fn form_sound(threadrows: ThreadRows, threads: u8, timerrows: TimerRows, timers: u8) -> bool
    ensures { result ≡ form_in threadrows threads timerrows timers }
{
    threads_formed(threadrows, threads) && timers_formed(timerrows, timers)
}

// All threads are ready.
fn all_ready(threadrows: ThreadRows, threads: u8) -> bool
    ensures { result ≡ all_ready_in threadrows threads }
{
    (0..threads).all(|t| stands(threadrows[(t % THREADS) as usize], READY, NONE))
}

// Nothing is owned.
fn nothing_owned(mutexrows: MutexTable, mutexes: u8) -> bool
    ensures { result ≡ nothing_owned_in mutexrows mutexes }
{
    (0..mutexes).all(|m| mutexrows[(m % MUTEXES) as usize].owner == NONE)
}

// No timer runs.
fn no_timer_runs(timerrows: TimerRows, timers: u8) -> bool
    ensures { result ≡ no_timer_runs_in timerrows timers }
{
    (0..timers).all(|timer| timerrows[(timer % TIMERS) as usize].state == STOPPED)
}

// The clause on rest: while stopped all threads are ready, nothing is owned, no timer runs, the count is 0.
pub fn rest_sound(
    started: bool,
    count: u32,
    threadrows: ThreadRows,
    threads: u8,
    mutexrows: MutexTable,
    mutexes: u8,
    timerrows: TimerRows,
    timers: u8,
) -> bool
    ensures { result ≡ rest_in started count threadrows threads mutexrows mutexes timerrows timers }
{
    if started {
        return true;
    }
    all_ready(threadrows, threads)
        && nothing_owned(mutexrows, mutexes)
        && no_timer_runs(timerrows, timers)
        && count == 0
}

// Whether a page is formed and sound: the limits first, then clause by clause.
pub fn sound(page: Page) -> bool
    ensures { result ≡ (page_formed (said page) && page_sound (said page)) }
{
    if !limits_sound(page.threads, page.mutexes, page.conditions, page.timers) {
        return false;
    }
    let threadrows = page.threadrows;
    let threads = page.threads;
    let mutexrows = page.mutexrows;
    let mutexes = page.mutexes;
    let timerrows = page.timerrows;
    if !form_sound(threadrows, threads, timerrows, page.timers) {
        return false;
    }
    if !bases_sound(threadrows, threads) {
        return false;
    }
    if !ceilings_sound(mutexrows, mutexes) {
        return false;
    }
    if !idle_sound(threadrows, mutexrows, mutexes) {
        return false;
    }
    let runner = runner_of(threadrows, threads);
    if !runner_sound(page.started, runner, threadrows, threads) {
        return false;
    }
    let priorities = priorities_of(threadrows, mutexrows, mutexes);
    let top = top_of(threadrows, threads, mutexrows, mutexes, runner);
    if !none_above(page.started, top, threadrows, threads, priorities) {
        return false;
    }
    if !objects_exist(threadrows, threads, mutexes, page.conditions) {
        return false;
    }
    if !mutexes_sound(mutexrows, mutexes, threadrows, threads, priorities) {
        return false;
    }
    let ties = page.ties;
    let conditions = page.conditions;
    if !conditions_sound(ties, conditions, threadrows, threads, mutexrows, mutexes) {
        return false;
    }
    if !timers_sound(timerrows, page.timers, page.conditions) {
        return false;
    }
    if !rest_sound(
        page.started,
        page.count,
        threadrows,
        threads,
        mutexrows,
        mutexes,
        timerrows,
        page.timers,
    ) {
        return false;
    }
    if !object_codes_sound(threadrows, threads) {
        return false;
    }
    places_sound(threadrows, threads, priorities)
}

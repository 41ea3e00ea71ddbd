// Whether the objects of a page are sound, clause by clause: ceilings, mutexes with their owners and waiters, condition variables, timers.
// An id is taken modulo the size of its table, so that every function is total; the limits are tested first.
#![tactic(auto)]

ghost use Rattle.std.specs.Prelude.{◌≡◌};
ghost use Rattle.sound_objects.specs.Objects.{ceilings_in, mutex_waiter_fits, mutex_waiters_in, owner_fits, mutex_fits, mutexes_in, ceiling_of, condition_waiter_fits, condition_waiters_in, tie_fits, condition_fits, conditions_in, ticks_fit, timer_fits, timers_in};

use limits::{
    CONDITIONS, FOR_MUTEX, HIGHEST, MOST_COUNT, MUTEXES, NONE, ON_CONDITION, ONE_SHOT, STOPPED,
    THREADS, TIMERS,
};
use page::{ThreadRow, ThreadRows, TimerRow, TimerRows};
use sound_standing::{Priorities, anyone, implied, owns_nothing, stands, within};
use units::Ticks;
use value_effects::{Mutex, MutexTable, Ties};

// The clause on ceilings: each is 1 to 15.
pub fn ceilings_sound(mutexrows: MutexTable, mutexes: u8) -> bool
    ensures { result ≡ ceilings_in mutexrows mutexes }
{
    (0..mutexes).all(|m| within(1, HIGHEST, mutexrows[(m % MUTEXES) as usize].ceiling))
}

// A waiter for mutex m isn't its owner and its priority isn't above the ceiling.
fn mutex_waiter_fits(m: u8, row: Mutex, t: u8, other: ThreadRow, its: u8) -> bool
    ensures { result ≡ mutex_waiter_fits m row t other its }
{
    implied(
        stands(other, FOR_MUTEX, m),
        t != row.owner && its <= row.ceiling,
    )
}

// The test of a waiter for mutex m, of each thread.
fn mutex_waiters_fit(
    threadrows: ThreadRows,
    threads: u8,
    priorities: Priorities,
    m: u8,
    row: Mutex,
) -> bool
    ensures { result ≡ mutex_waiters_in threadrows threads priorities m row }
{
    (0..threads).all(|t| {
        let i = (t % THREADS) as usize;
        mutex_waiter_fits(m, row, t, threadrows[i], priorities[i])
    })
}

// A free mutex has owner 255, count 0 and no waiter; an owned one has an existing owner, count 1 to 255, owner's base not above the ceiling.
fn owner_fits(threadrows: ThreadRows, threads: u8, m: u8, row: Mutex) -> bool
    ensures { result ≡ owner_fits threadrows threads m row }
{
    if row.owner == NONE {
        let waited = anyone(threadrows, threads, FOR_MUTEX, m);
        return row.count == 0 && !waited;
    }
    let i = (row.owner % THREADS) as usize;
    let owner = threadrows[i];
    let counted = within(1, MOST_COUNT, row.count);
    row.owner < threads && counted && owner.base <= row.ceiling
}

// The tests of one mutex: its owner, its waiters.
fn mutex_fits(
    threadrows: ThreadRows,
    threads: u8,
    priorities: Priorities,
    m: u8,
    row: Mutex,
) -> bool
    ensures { result ≡ mutex_fits threadrows threads priorities m row }
{
    let owner = owner_fits(threadrows, threads, m, row);
    let waiters = mutex_waiters_fit(threadrows, threads, priorities, m, row);
    owner && waiters
}

// The clause on mutexes.
pub fn mutexes_sound(
    mutexrows: MutexTable,
    mutexes: u8,
    threadrows: ThreadRows,
    threads: u8,
    priorities: Priorities,
) -> bool
    ensures { result ≡ mutexes_in mutexrows mutexes threadrows threads priorities }
{
    (0..mutexes).all(|m| {
        let row = mutexrows[(m % MUTEXES) as usize];
        mutex_fits(threadrows, threads, priorities, m, row)
    })
}

// The ceiling of mutex m, of the first n; 0 for one that is not there.
fn ceiling_of(mutexes: MutexTable, n: u8, m: u8) -> u8
    ensures { result ≡ ceiling_of mutexes n m }
{
    if n <= m {
        return 0;
    }
    let i = (m % MUTEXES) as usize;
    let row = mutexes[i];
    row.ceiling
}

// A waiter on condition variable c owns nothing and has base not above the ceiling.
fn condition_waiter_fits(
    mutexrows: MutexTable,
    mutexes: u8,
    c: u8,
    ceiling: u8,
    t: u8,
    row: ThreadRow,
) -> bool
    ensures { result ≡ condition_waiter_fits mutexrows mutexes c ceiling t row }
{
    if !stands(row, ON_CONDITION, c) {
        return true;
    }
    owns_nothing(mutexrows, mutexes, t) && row.base <= ceiling
}

// The test of a waiter on condition variable c, of each thread.
fn condition_waiters_fit(
    threadrows: ThreadRows,
    threads: u8,
    mutexrows: MutexTable,
    mutexes: u8,
    c: u8,
    ceiling: u8,
) -> bool
    ensures { result ≡ condition_waiters_in threadrows threads mutexrows mutexes c ceiling }
{
    (0..threads).all(|t| {
        let row = threadrows[(t % THREADS) as usize];
        condition_waiter_fits(mutexrows, mutexes, c, ceiling, t, row)
    })
}

// A condition variable is tied exactly while someone waits on it, to a mutex that exists.
fn tie_fits(someone: bool, n: u8, tie: u8) -> bool
    ensures { result ≡ tie_fits someone n tie }
{
    if someone {
        return tie < n;
    }
    tie == NONE
}

// The tests of one condition variable: its tie, its waiters.
#[tactic(auto, unfolding(crate::specs::Objects::condition_fits, rules::specs::Page::where_of))]
fn condition_fits(
    threadrows: ThreadRows,
    threads: u8,
    mutexrows: MutexTable,
    mutexes: u8,
    c: u8,
    tie: u8,
) -> bool
    ensures { result ≡ condition_fits threadrows threads mutexrows mutexes c tie }
{
    let someone = anyone(threadrows, threads, ON_CONDITION, c);
    let tied = tie_fits(someone, mutexes, tie);
    let ceiling = ceiling_of(mutexrows, mutexes, tie);
    let waiters = condition_waiters_fit(threadrows, threads, mutexrows, mutexes, c, ceiling);
    tied && waiters
}

// The clause on condition variables.
pub fn conditions_sound(
    ties: Ties,
    conditions: u8,
    threadrows: ThreadRows,
    threads: u8,
    mutexrows: MutexTable,
    mutexes: u8,
) -> bool
    ensures { result ≡ conditions_in ties conditions threadrows threads mutexrows mutexes }
{
    (0..conditions).all(|c| {
        let i = (c % CONDITIONS) as usize;
        condition_fits(threadrows, threads, mutexrows, mutexes, c, ties[i])
    })
}

// The ticks of a running timer: n from 1, and ticks left from 1 to n if it expires once, else to n + 1; a count of ticks is never above 65,535.
fn ticks_fit(once: bool, n: Ticks, left: Ticks) -> bool
    ensures { result ≡ ticks_fit once n.0 left.0 }
{
    if n.0 < 1 {
        return false;
    }
    if left.0 < 1 {
        return false;
    }
    if once {
        return left.0 <= n.0;
    }
    left.0 - 1 <= n.0
}

// A running timer has an existing condition variable and its ticks fit; a stopped one has 255, 0 and 0.
fn timer_fits(conditions: u8, row: TimerRow) -> bool
    ensures { result ≡ timer_fits conditions row }
{
    if row.state == STOPPED {
        return row.condition == NONE && row.length.0 == 0 && row.left.0 == 0;
    }
    let ticks = ticks_fit(row.state == ONE_SHOT, row.length, row.left);
    row.condition < conditions && ticks
}

// The clause on timers.
pub fn timers_sound(timerrows: TimerRows, timers: u8, conditions: u8) -> bool
    ensures { result ≡ timers_in timerrows timers conditions }
{
    (0..timers).all(|timer| timer_fits(conditions, timerrows[(timer % TIMERS) as usize]))
}

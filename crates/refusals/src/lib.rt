// The verdicts: whether a call can be done, from what it asks of the kernel, with the first test that fails in document 01's order.
#![tactic(auto)]

ghost use Rattle.std.specs.Prelude.{◌≡◌};
ghost use Rattle.refusals.specs.Verdicts.{created_verdict, room_verdict, start_verdict, acquire_verdict, release_verdict, held_verdict, ids_verdict, first_verdict, id_verdict, start_timer_verdict, stop_verdict, owned_one, owned_in};

use calls::Verdict;
use limits::{HIGHEST, MOST_COUNT, NONE, STOPPED};
use value_effects::{Mutex, MutexTable};

// Whether a thread or a mutex can be created.
pub fn created_verdict(value: u8, count: u8, limit: u8) -> Verdict
    ensures { result ≡ created_verdict value count limit }
{
    if value < 1 {
        return Verdict::OutOfRange;
    }
    if HIGHEST < value {
        return Verdict::OutOfRange;
    }
    if limit <= count {
        return Verdict::TableFull;
    }
    Verdict::Done
}

// Whether a table has room.
pub fn room_verdict(count: u8, limit: u8) -> Verdict
    ensures { result ≡ room_verdict count limit }
{
    if limit <= count {
        return Verdict::TableFull;
    }
    Verdict::Done
}

// Whether the scheduler can start.
pub fn start_verdict(started: bool) -> Verdict
    ensures { result ≡ start_verdict started }
{
    if started {
        return Verdict::AlreadyStarted;
    }
    Verdict::Done
}

// Whether the caller can acquire mutex m.
pub fn acquire_verdict(
    started: bool,
    mutexes: u8,
    m: u8,
    running: u8,
    row: Mutex,
    priority: u8,
) -> Verdict
    ensures { result ≡ acquire_verdict started mutexes m running row priority }
{
    if !started {
        return Verdict::Stopped;
    }
    if mutexes <= m {
        return Verdict::NoSuchId;
    }
    if running == 0 {
        return Verdict::IdleCaller;
    }
    if row.owner == running {
        if row.count == MOST_COUNT {
            return Verdict::CountFull;
        }
        return Verdict::Done;
    }
    if row.ceiling < priority {
        return Verdict::AboveCeiling;
    }
    Verdict::Done
}

// Whether the caller can release mutex m.
pub fn release_verdict(started: bool, mutexes: u8, m: u8, running: u8, owner: u8) -> Verdict
    ensures { result ≡ release_verdict started mutexes m running owner }
{
    if !started {
        return Verdict::Stopped;
    }
    if mutexes <= m {
        return Verdict::NoSuchId;
    }
    if owner == running {
        return Verdict::Done;
    }
    Verdict::NotOwner
}

// What a wait asks beyond the ids: the caller, the mutex's row, how many mutexes the caller owns, and the tie.
pub fn held_verdict(m: u8, running: u8, row: Mutex, owned: u8, tie: u8) -> Verdict
    ensures { result ≡ held_verdict m running row owned tie }
{
    if running == 0 {
        return Verdict::IdleCaller;
    }
    if row.owner != running {
        return Verdict::NotOwner;
    }
    if 1 < row.count {
        return Verdict::HoldingMore;
    }
    if 1 < owned {
        return Verdict::HoldingMore;
    }
    if tie == NONE {
        return Verdict::Done;
    }
    if tie == m {
        return Verdict::Done;
    }
    Verdict::TiedElsewhere
}

// Whether the ids of a call on two things exist, while started.
pub fn ids_verdict(started: bool, first: u8, i: u8, second: u8, j: u8) -> Verdict
    ensures { result ≡ ids_verdict started first i second j }
{
    if !started {
        return Verdict::Stopped;
    }
    if first <= i {
        return Verdict::NoSuchId;
    }
    if second <= j {
        return Verdict::NoSuchId;
    }
    Verdict::Done
}

// The first verdict that is not done.
pub fn first_of(a: Verdict, b: Verdict) -> Verdict
    ensures { result ≡ first_verdict a b }
{
    if a.is_done() {
        return b;
    }
    a
}

// Whether an id exists, while started.
pub fn id_verdict(started: bool, count: u8, i: u8) -> Verdict
    ensures { result ≡ id_verdict started count i }
{
    if !started {
        return Verdict::Stopped;
    }
    if count <= i {
        return Verdict::NoSuchId;
    }
    Verdict::Done
}

// Whether a timer of this state can start.
pub fn start_timer_verdict(state: u8) -> Verdict
    ensures { result ≡ start_timer_verdict state }
{
    if state != STOPPED {
        return Verdict::TimerRunning;
    }
    Verdict::Done
}

// Whether a timer of this state can stop.
pub fn stop_verdict(state: u8) -> Verdict
    ensures { result ≡ stop_verdict state }
{
    if state == STOPPED {
        return Verdict::TimerStopped;
    }
    Verdict::Done
}

// 1 if thread t owns the mutex, else 0.
pub fn owned_one(row: Mutex, t: u8) -> u8
    ensures { result ≡ owned_one row t }
{
    if row.owner == t {
        return 1;
    }
    0
}

// How many mutexes thread t owns.
pub fn owned_by(mutexes: MutexTable, t: u8) -> u8
    ensures { result ≡ owned_in mutexes t }
{
    mutexes.iter().filter(|row| row.owner == t).count() as u8
}

// Calls 1 to 10, which leave timers and wheel alone, with the scheduler changed in place.
#![tactic(auto)]

ghost use Rattle.std.specs.Prelude.{◌≡◌, true, false};
ghost use Rattle.calls.specs.Answers.{number_of};
ghost use Rattle.place_tables.specs.Cells.{scheduler_in};
ghost use Rattle.value_engine.specs.Engines.{answered_model, start_model, create_thread_model, create_mutex_model, create_condition_model, create_timer_model, acquire_model, release_model, wait_model, signal_model, broadcast_model};
ghost use Rattle.place_calls.specs.Standing.{Timing, engine_in, stepped_in};

use calls::{Answer, Verdict, number};
use limits::{CONDITIONS, MUTEXES, NOTHING, THREADS, TIMERS};
use place_effects::owned_by;
use place_queues::{choose_next, run_first};
use place_tables::{Cells, mutex_at, running_at, thread_at, tie_at};
use refusals::{
    acquire_verdict, created_verdict, first_of, held_verdict, id_verdict, ids_verdict,
    release_verdict, room_verdict, start_verdict,
};

// Whether the scheduler is started, and how many rows of each table are in use.
#[derive(Clone, Copy)]
pub struct Counts {
    pub started: bool,
    pub threads: u8,
    pub mutexes: u8,
    pub conditions: u8,
    pub timercount: u8,
}

// The counts that follow, and the answer.
#[derive(Clone, Copy)]
pub struct Counted {
    pub counts: Counts,
    pub answer: Answer,
}

// The answer to a refused call: its number, given 255, and the thread that runs on.
pub fn refuse(cells: &Cells, verdict: Verdict) -> Answer
    ensures { result ≡ record { number = number_of verdict; given = 255; running = (scheduler_in cells.now).running } }
{
    let running = running_at(cells);
    let n = number(verdict);
    Answer {
        number: n,
        given: NOTHING,
        running,
    }
}

// The answer to an accepted call whose effect is done: while started the next thread is chosen.
pub fn finish(cells: &mut Cells, counts: Counts, given: u16, tick: bool) -> Answer
    ensures { (timing : Timing) → stepped_in cells.new timing counts result ≡ answered_model (engine_in cells.old timing counts) given tick }
{
    if counts.started {
        choose_next(cells, tick);
    }
    let running = running_at(cells);
    Answer {
        number: 0,
        given,
        running,
    }
}

// Call 6.
pub fn acquire(cells: &mut Cells, counts: Counts, m: u8) -> Answer
    ensures { (timing : Timing) → stepped_in cells.new timing counts result ≡ acquire_model (engine_in cells.old timing counts) m }
{
    let running = running_at(cells);
    let row = mutex_at(cells, m);
    let caller = thread_at(cells, running);
    let verdict = acquire_verdict(
        counts.started,
        counts.mutexes,
        m,
        running,
        row,
        caller.priority,
    );
    if !verdict.is_done() {
        return refuse(cells, verdict);
    }
    place_effects::acquire(cells, m);
    finish(cells, counts, NOTHING, false)
}

// Call 7.
pub fn release(cells: &mut Cells, counts: Counts, m: u8) -> Answer
    ensures { (timing : Timing) → stepped_in cells.new timing counts result ≡ release_model (engine_in cells.old timing counts) m }
{
    let running = running_at(cells);
    let row = mutex_at(cells, m);
    let verdict = release_verdict(counts.started, counts.mutexes, m, running, row.owner);
    if !verdict.is_done() {
        return refuse(cells, verdict);
    }
    place_effects::release(cells, m);
    finish(cells, counts, NOTHING, false)
}

// Call 8.
pub fn wait(cells: &mut Cells, counts: Counts, c: u8, m: u8) -> Answer
    ensures { (timing : Timing) → stepped_in cells.new timing counts result ≡ wait_model (engine_in cells.old timing counts) c m }
{
    let running = running_at(cells);
    let row = mutex_at(cells, m);
    let tie = tie_at(cells, c);
    let owned = owned_by(cells, running);
    let ids = ids_verdict(counts.started, counts.conditions, c, counts.mutexes, m);
    let held = held_verdict(m, running, row, owned, tie);
    let verdict = first_of(ids, held);
    if !verdict.is_done() {
        return refuse(cells, verdict);
    }
    place_effects::wait(cells, c, m);
    finish(cells, counts, NOTHING, false)
}

// Call 9.
pub fn signal(cells: &mut Cells, counts: Counts, c: u8) -> Answer
    ensures { (timing : Timing) → stepped_in cells.new timing counts result ≡ signal_model (engine_in cells.old timing counts) c }
{
    let verdict = id_verdict(counts.started, counts.conditions, c);
    if !verdict.is_done() {
        return refuse(cells, verdict);
    }
    let left = place_effects::signal(cells, c);
    finish(cells, counts, left, false)
}

// Call 10. It stands beside call 9, since one body for both would take the signal as a closure, in more lines.
pub fn broadcast(cells: &mut Cells, counts: Counts, c: u8) -> Answer
    ensures { (timing : Timing) → stepped_in cells.new timing counts result ≡ broadcast_model (engine_in cells.old timing counts) c }
{
    let verdict = id_verdict(counts.started, counts.conditions, c);
    if !verdict.is_done() {
        return refuse(cells, verdict);
    }
    let left = place_effects::broadcast(cells, c);
    finish(cells, counts, left, false)
}

// The counts with an answer.
pub fn with_answer(counts: Counts, answer: Answer) -> Counted
    ensures { result ≡ record { counts = counts; answer = answer } }
{
    Counted { counts, answer }
}

// Call 1.
pub fn start(cells: &mut Cells, mut counts: Counts) -> Counted
    ensures { (timing : Timing) → stepped_in cells.new timing result.counts result.answer ≡ start_model (engine_in cells.old timing counts) }
{
    let verdict = start_verdict(counts.started);
    if !verdict.is_done() {
        let answer = refuse(cells, verdict);
        return with_answer(counts, answer);
    }
    run_first(cells);
    counts.started = true;
    let answer = finish(cells, counts, NOTHING, false);
    with_answer(counts, answer)
}

// Call 2.
pub fn create_thread(cells: &mut Cells, mut counts: Counts, base: u8) -> Counted
    ensures { (timing : Timing) → stepped_in cells.new timing result.counts result.answer ≡ create_thread_model (engine_in cells.old timing counts) base }
{
    let id = counts.threads;
    let verdict = created_verdict(base, id, THREADS);
    if !verdict.is_done() {
        let answer = refuse(cells, verdict);
        return with_answer(counts, answer);
    }
    place_effects::create(cells, id, base);
    counts.threads = id % THREADS + 1;
    let answer = finish(cells, counts, id as u16, false);
    with_answer(counts, answer)
}

// Call 3. It stands beside call 2, since one body for both would take the count and what is created as closures, in more lines.
pub fn create_mutex(cells: &mut Cells, mut counts: Counts, ceiling: u8) -> Counted
    ensures { (timing : Timing) → stepped_in cells.new timing result.counts result.answer ≡ create_mutex_model (engine_in cells.old timing counts) ceiling }
{
    let id = counts.mutexes;
    let verdict = created_verdict(ceiling, id, MUTEXES);
    if !verdict.is_done() {
        let answer = refuse(cells, verdict);
        return with_answer(counts, answer);
    }
    place_effects::create_mutex(cells, id, ceiling);
    counts.mutexes = id % MUTEXES + 1;
    let answer = finish(cells, counts, id as u16, false);
    with_answer(counts, answer)
}

// Call 4.
pub fn create_condition(cells: &mut Cells, mut counts: Counts) -> Counted
    ensures { (timing : Timing) → stepped_in cells.new timing result.counts result.answer ≡ create_condition_model (engine_in cells.old timing counts) }
{
    let id = counts.conditions;
    let verdict = room_verdict(id, CONDITIONS);
    if !verdict.is_done() {
        let answer = refuse(cells, verdict);
        return with_answer(counts, answer);
    }
    counts.conditions = id % CONDITIONS + 1;
    let answer = finish(cells, counts, id as u16, false);
    with_answer(counts, answer)
}

// Call 5. It stands beside call 4, since one body for both would take the count as a closure, in more lines.
pub fn create_timer(cells: &mut Cells, mut counts: Counts) -> Counted
    ensures { (timing : Timing) → stepped_in cells.new timing result.counts result.answer ≡ create_timer_model (engine_in cells.old timing counts) }
{
    let id = counts.timercount;
    let verdict = room_verdict(id, TIMERS);
    if !verdict.is_done() {
        let answer = refuse(cells, verdict);
        return with_answer(counts, answer);
    }
    counts.timercount = id % TIMERS + 1;
    let answer = finish(cells, counts, id as u16, false);
    with_answer(counts, answer)
}

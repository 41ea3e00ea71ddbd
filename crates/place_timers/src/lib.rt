// Calls 11 to 13, which change timers and wheel: scheduler, clock and wheel stand in three lent arrays and are changed in place.
#![tactic(auto)]

ghost use Rattle.std.specs.Prelude.{ℕ, ◌≡◌, List};
ghost use Rattle.wheel.specs.Promise.{ids_of};
ghost use Rattle.value_engine.specs.Engines.{start_timer_model, timer_stopped, stop_timer_model, serve_model, serve_all_model, tick_model};
ghost use Rattle.place_calls.specs.declared.Counts.{Counts};
ghost use Rattle.place_timers.specs.Arrays.{engine_on, stepped_on, effect_on};

use calls::{Answer, Kind, Verdict, number};
use limits::{NOTHING, PERIODIC, TIMERS};
use place_calls::{Counts, finish, refuse};
use place_clock::{ClockWords, count_at, put_count, put_timer, timer_at};
use place_effects::signal;
use place_tables::Cells;
use refusals::{first_of, id_verdict, ids_verdict, start_timer_verdict, stop_verdict};
use units::{Micros, count_of, ticks_of};
use value_engine::{STOPPED_TIMER, Timer, length_kept, state_of};
use wheel::{Due, WheelWords};

// The most timers that come due at one tick.
const MOST_DUE: u16 = TIMERS as u16;

// Call 11.
pub fn start_timer(
    cells: &mut Cells,
    clock: &mut ClockWords,
    wheel: &mut WheelWords,
    counts: Counts,
    id: u8,
    c: u8,
    kind: Kind,
    v: Micros,
) -> Answer
    ensures { stepped_on cells.new clock.new wheel.new counts result ≡ start_timer_model (engine_on cells.old clock.old wheel.old counts) id c kind v }
{
    let row = timer_at(clock, id);
    let ids = ids_verdict(counts.started, counts.timercount, id, counts.conditions, c);
    let Some(first) = ticks_of(v) else {
        let verdict = first_of(ids, Verdict::OutOfRange);
        return refuse(cells, verdict);
    };
    let stopped = start_timer_verdict(row.state);
    let verdict = first_of(ids, stopped);
    if !verdict.is_done() {
        return refuse(cells, verdict);
    }
    let state = state_of(kind);
    let length = length_kept(kind, first);
    let set = Timer {
        state,
        condition: c,
        length,
    };
    put_timer(clock, id, set);
    wheel::start(wheel, id, first);
    finish(cells, counts, NOTHING, false)
}

// Timer id stopped, and the ticks that were left to it.
fn timer_stopped(clock: &mut ClockWords, wheel: &mut WheelWords, id: u8) -> u16
    ensures { (cells : List ℕ) (counts : Counts) → effect_on cells clock.new wheel.new counts result ≡ timer_stopped (engine_on cells clock.old wheel.old counts) id }
{
    let left = wheel::left(wheel, id);
    put_timer(clock, id, STOPPED_TIMER);
    wheel::stop(wheel, id);
    count_of(left)
}

// Call 12.
pub fn stop_timer(
    cells: &mut Cells,
    clock: &mut ClockWords,
    wheel: &mut WheelWords,
    counts: Counts,
    id: u8,
) -> Answer
    ensures { stepped_on cells.new clock.new wheel.new counts result ≡ stop_timer_model (engine_on cells.old clock.old wheel.old counts) id }
{
    let row = timer_at(clock, id);
    let ids = id_verdict(counts.started, counts.timercount, id);
    let state = stop_verdict(row.state);
    let verdict = first_of(ids, state);
    if !verdict.is_done() {
        return refuse(cells, verdict);
    }
    let given = timer_stopped(clock, wheel, id);
    finish(cells, counts, given, false)
}

// Timer id has come due: it signals its condition variable; a periodic one is hung again, a one-shot is stopped.
fn serve(cells: &mut Cells, clock: &mut ClockWords, wheel: &mut WheelWords, id: u8)
    ensures { (counts : Counts) → engine_on cells.new clock.new wheel.new counts ≡ serve_model (engine_on cells.old clock.old wheel.old counts) id }
{
    let row = timer_at(clock, id);
    signal(cells, row.condition);
    if row.state == PERIODIC {
        wheel::start(wheel, id, row.length);
        return;
    }
    put_timer(clock, id, STOPPED_TIMER);
}

// The timers that have come due are served in order of id. How many there were.
fn serve_all(cells: &mut Cells, clock: &mut ClockWords, wheel: &mut WheelWords, due: Due) -> u16
    ensures { (counts : Counts) → effect_on cells.new clock.new wheel.new counts result ≡ serve_all_model 32 0 (engine_on cells.old clock.old wheel.old counts) (ids_of due) }
{
    let mut left = due;
    for given in 0..MOST_DUE {
        let id = left.first();
        if TIMERS <= id {
            return given;
        }
        serve(cells, clock, wheel, id);
        left = left.rest();
    }
    MOST_DUE
}

// Call 13.
pub fn tick(
    cells: &mut Cells,
    clock: &mut ClockWords,
    wheel: &mut WheelWords,
    counts: Counts,
) -> Answer
    ensures { stepped_on cells.new clock.new wheel.new counts result ≡ tick_model (engine_on cells.old clock.old wheel.old counts) }
{
    if !counts.started {
        return refuse(cells, Verdict::Stopped);
    }
    let turned = wheel::tick(wheel);
    let due = turned.due;
    let count = count_at(clock);
    put_count(clock, count.wrapping_add(1));
    let given = serve_all(cells, clock, wheel, due);
    finish(cells, counts, given, true)
}

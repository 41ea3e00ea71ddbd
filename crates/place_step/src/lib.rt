// A row as one call on a kernel that stands in three lent arrays, and the engine taken apart so and put together.
#![tactic(auto)]

ghost use Rattle.std.specs.Prelude.{◌≡◌};
ghost use Rattle.calls.specs.Rows.{decoded};
ghost use Rattle.wheel.specs.Promise.{wheel_in};
ghost use Rattle.place_tables.specs.Cells.{scheduler_in};
ghost use Rattle.place_clock.specs.Clock.{clock_in, clock_of};
ghost use Rattle.value_engine.specs.Engines.{step_model};
ghost use Rattle.place_timers.specs.Arrays.{engine_on, stepped_on};
ghost use Rattle.place_step.specs.Turning.{decoded_model, counts_of};

use calls::{Call, Row, Verdict, decode};
use place_calls::{
    Counted, Counts, acquire, broadcast, create_condition, create_mutex, create_thread,
    create_timer, refuse, release, signal, start, wait, with_answer,
};
use place_clock::{ClockWords, clock_of, count_at, timers_in};
use place_packing::{packed, unpacked};
use place_tables::Cells;
use place_timers::{start_timer, stop_timer, tick};
use value_engine::Engine;
use wheel::{WheelWords, wheel_of, words_of};

// The scheduler of an engine, in an array.
pub fn cells_of(engine: Engine) -> Cells
    ensures { scheduler_in result ≡ engine.scheduler }
{
    let scheduler = engine.scheduler;
    packed(scheduler)
}

// The timers and the tick count of an engine, in an array.
pub fn clock_words(engine: Engine) -> ClockWords
    ensures { clock_in result ≡ clock_of engine.timers engine.count }
{
    let timers = engine.timers;
    clock_of(timers, engine.count)
}

// The wheel of an engine, in an array.
pub fn wheel_words(engine: Engine) -> WheelWords
    ensures { wheel_in result ≡ engine.wheel }
{
    let wheel = engine.wheel;
    words_of(wheel)
}

// Whether an engine is started, and its counts.
pub fn counts_of(engine: Engine) -> Counts
    ensures { result ≡ counts_of engine }
{
    Counts {
        started: engine.started,
        threads: engine.threads,
        mutexes: engine.mutexes,
        conditions: engine.conditions,
        timercount: engine.timercount,
    }
}

// The engine that stands in three arrays, with its counts.
pub fn engine_of(cells: &Cells, clock: &ClockWords, wheel: &WheelWords, counts: Counts) -> Engine
    ensures { result ≡ engine_on cells.now clock.now wheel.now counts }
{
    Engine {
        scheduler: unpacked(cells),
        timers: timers_in(clock),
        wheel: wheel_of(wheel),
        started: counts.started,
        threads: counts.threads,
        mutexes: counts.mutexes,
        conditions: counts.conditions,
        timercount: counts.timercount,
        count: count_at(clock),
    }
}

// A call: the counts that follow, and the answer.
fn step(
    cells: &mut Cells,
    clock: &mut ClockWords,
    wheel: &mut WheelWords,
    counts: Counts,
    call: Call,
) -> Counted
    ensures { stepped_on cells.new clock.new wheel.new result.counts result.answer ≡ step_model (engine_on cells.old clock.old wheel.old counts) call }
{
    match call {
        Call::Start => start(cells, counts),
        Call::CreateThread(base) => create_thread(cells, counts, base),
        Call::CreateMutex(ceiling) => create_mutex(cells, counts, ceiling),
        Call::CreateCondition => create_condition(cells, counts),
        Call::CreateTimer => create_timer(cells, counts),
        Call::Acquire(m) => with_answer(counts, acquire(cells, counts, m)),
        Call::Release(m) => with_answer(counts, release(cells, counts, m)),
        Call::Wait(c, m) => with_answer(counts, wait(cells, counts, c, m)),
        Call::Signal(c) => with_answer(counts, signal(cells, counts, c)),
        Call::Broadcast(c) => with_answer(counts, broadcast(cells, counts, c)),
        Call::StartTimer(id, c, kind, v) => with_answer(
            counts,
            start_timer(cells, clock, wheel, counts, id, c, kind, v),
        ),
        Call::StopTimer(id) => with_answer(counts, stop_timer(cells, clock, wheel, counts, id)),
        Call::Tick => with_answer(counts, tick(cells, clock, wheel, counts)),
    }
}

// A row of 8 bytes: its call done, or answered 17 with nothing changed.
pub fn step_row(
    cells: &mut Cells,
    clock: &mut ClockWords,
    wheel: &mut WheelWords,
    counts: Counts,
    row: Row,
) -> Counted
    ensures { stepped_on cells.new clock.new wheel.new result.counts result.answer ≡ decoded_model (engine_on cells.old clock.old wheel.old counts) (decoded row) }
{
    let decoded = decode(row);
    let Some(call) = decoded else {
        let answer = refuse(cells, Verdict::WrongRow);
        return with_answer(counts, answer);
    };
    step(cells, clock, wheel, counts, call)
}

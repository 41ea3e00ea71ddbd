// The engine: the scheduler, the timers with their wheel, and the tick count; boot, and the thirteen calls, by value: a call takes the engine, copies out
// the part that it changes, stores it back, and hands the engine on with the answer.
// An id is taken modulo the size of its table, so that every function is total; a call with an id that does not exist is refused first.
#![tactic(auto)]

ghost use Rattle.std.specs.Prelude.{◌≡◌, true, None};
ghost use Rattle.calls.specs.declared.Verdict.TheVariants.{WrongRow};
ghost use Rattle.units.specs.Units.{in_ticks};
ghost use Rattle.rules.specs.State.{State, boot};
ghost use Rattle.rules.specs.Effects.{length_kept};
ghost use Rattle.rules.specs.Sound.{sound};
ghost use Rattle.rules.specs.Step.{step, step_decoded};
ghost use Rattle.value_engine.specs.Stands.{engine_of, stepped_of};
ghost use Rattle.wheel.specs.Promise.{ids_of};
ghost use Rattle.value_engine.specs.Engines.{boot_model, kind_code, refused_model, answered_model, start_model, create_thread_model, create_mutex_model, create_condition_model, create_timer_model, acquire_model, release_model, wait_model, signal_model, broadcast_model, start_timer_model, timer_stopped, stop_timer_model, serve_model, serve_all_model, tick_model, step_model};

use calls::{Answer, Call, Kind, Verdict, number};
use limits::{
    CONDITION_ROWS, CONDITIONS, MUTEX_ROWS, MUTEXES, NONE, NOTHING, ONE_SHOT, PERIODIC, STOPPED,
    THREAD_ROWS, THREADS, TICK_COUNTS, TIMER_ROWS, TIMERS,
};
use queue::{Links, Queues};
use refusals::{
    acquire_verdict, created_verdict, first_of, held_verdict, id_verdict, ids_verdict, owned_by,
    release_verdict, room_verdict, start_timer_verdict, start_verdict, stop_verdict,
};
use units::{Micros, Ticks, count_of, repeat_of, ticks_of};
use value_effects::{FREE_MUTEX, SETS, Scheduler};
use value_tables::{BLANK_THREAD, Threads};
use wheel::{Due, Wheel};

// A timer's row: its state (0 stopped, 1 one-shot, 2 periodic), its condition variable, 255 for none, and n, which is the repeat of a periodic one.
// A kernel with any other byte there is refused, so the state is no enum.
#[derive(Clone, Copy)]
pub struct Timer {
    pub state: u8,
    pub condition: u8,
    pub length: Ticks,
}

// The row of a stopped timer.
pub const STOPPED_TIMER: Timer = Timer {
    state: STOPPED,
    condition: NONE,
    length: Ticks(0),
};

// A row for each timer.
pub type TimerTable = [Timer; TIMER_ROWS];

// The timers that can expire at one tick: all of them.
const EXPIRIES: u16 = TIMERS as u16;

// The whole engine. The four counts say how many rows of each table are in use.
#[derive(Clone, Copy)]
pub struct Engine {
    pub scheduler: Scheduler,
    pub timers: TimerTable,
    pub wheel: Wheel,
    pub started: bool,
    pub threads: u8,
    pub mutexes: u8,
    pub conditions: u8,
    pub timercount: u8,
    pub count: u32,
}

// The engine that follows, and what was given.
#[derive(Clone, Copy)]
pub struct Effect {
    pub engine: Engine,
    pub given: u16,
}

// The engine that follows, with its answer.
#[derive(Clone, Copy)]
pub struct Stepped {
    pub engine: Engine,
    pub answer: Answer,
}

// The timer state of a kind.
pub fn state_of(kind: Kind) -> u8
    ensures { result ≡ kind_code kind }
{
    match kind {
        Kind::OneShot => ONE_SHOT,
        Kind::Periodic => PERIODIC,
    }
}

// The n of a timer's row, where the length is n: a periodic one's row keeps the repeat.
pub fn length_kept(kind: Kind, n: Ticks) -> Ticks
    ensures { result ≡ in_ticks (length_kept kind n.0) }
{
    let repeat = repeat_of(n);
    match kind {
        Kind::OneShot => n,
        Kind::Periodic => repeat,
    }
}

// The scheduler at boot: thread 0 is ready, none runs, and nothing else exists.
fn first_scheduler() -> Scheduler
    ensures { result ≡ boot_model.scheduler }
{
    let blank = BLANK_THREAD;
    let rows = [blank; THREAD_ROWS];
    let links = Links::empty();
    let ready = Queues::empty();
    let none = Threads { rows, links, ready };
    let threads = none.arrive(0);
    let free = FREE_MUTEX;
    let mutexes = [free; MUTEX_ROWS];
    let empty = Queues::empty();
    let formutex = [empty; SETS];
    let ties = [NONE; CONDITION_ROWS];
    let oncondition = [empty; SETS];
    Scheduler {
        threads,
        mutexes,
        formutex,
        ties,
        oncondition,
        running: NONE,
    }
}

impl Engine {
    // The scheduler is stopped, thread 0 is ready, nothing else exists, the tick count is 0.
    pub fn boot() -> Engine
        ensures { result ≡ engine_of boot }
    {
        let scheduler = first_scheduler();
        let stopped = STOPPED_TIMER;
        let timers = [stopped; TIMER_ROWS];
        let wheel = Wheel::empty(0);
        Engine {
            scheduler,
            timers,
            wheel,
            started: false,
            threads: 1,
            mutexes: 0,
            conditions: 0,
            timercount: 0,
            count: 0,
        }
    }

    // A refused call: nothing changes, given is 255.
    fn refused(self, verdict: Verdict) -> Stepped
        ensures { result ≡ refused_model self verdict }
    {
        let n = number(verdict);
        let answer = Answer {
            number: n,
            given: NOTHING,
            running: self.scheduler.running,
        };
        Stepped {
            engine: self,
            answer,
        }
    }

    // An accepted call whose effect is done: while started the next thread is chosen.
    fn answered(mut self, given: u16, tick: bool) -> Stepped
        ensures { result ≡ answered_model self given tick }
    {
        if self.started {
            let scheduler = self.scheduler;
            let chosen = scheduler.choose_next(tick);
            let answer = Answer {
                number: 0,
                given,
                running: chosen.running,
            };
            self.scheduler = chosen;
            return Stepped {
                engine: self,
                answer,
            };
        }
        let answer = Answer {
            number: 0,
            given,
            running: self.scheduler.running,
        };
        Stepped {
            engine: self,
            answer,
        }
    }

    // Call 1.
    fn start(mut self) -> Stepped
        ensures { result ≡ start_model self }
    {
        let verdict = start_verdict(self.started);
        if !verdict.is_done() {
            return self.refused(verdict);
        }
        let scheduler = self.scheduler;
        let after = scheduler.run_first();
        self.scheduler = after;
        self.started = true;
        self.answered(NOTHING, false)
    }

    // Call 2.
    fn create_thread(mut self, base: u8) -> Stepped
        ensures { result ≡ create_thread_model self base }
    {
        let id = self.threads;
        let verdict = created_verdict(base, id, THREADS);
        if !verdict.is_done() {
            return self.refused(verdict);
        }
        let scheduler = self.scheduler;
        let after = scheduler.create(id, base);
        self.scheduler = after;
        self.threads = id % THREADS + 1;
        self.answered(id as u16, false)
    }

    // Call 3. It stands beside call 2, since one body for both would take the count and what is created as closures, in more lines.
    fn create_mutex(mut self, ceiling: u8) -> Stepped
        ensures { result ≡ create_mutex_model self ceiling }
    {
        let id = self.mutexes;
        let verdict = created_verdict(ceiling, id, MUTEXES);
        if !verdict.is_done() {
            return self.refused(verdict);
        }
        let scheduler = self.scheduler;
        let after = scheduler.create_mutex(id, ceiling);
        self.scheduler = after;
        self.mutexes = id % MUTEXES + 1;
        self.answered(id as u16, false)
    }

    // Call 4.
    fn create_condition(mut self) -> Stepped
        ensures { result ≡ create_condition_model self }
    {
        let id = self.conditions;
        let verdict = room_verdict(id, CONDITIONS);
        if !verdict.is_done() {
            return self.refused(verdict);
        }
        self.conditions = id % CONDITIONS + 1;
        self.answered(id as u16, false)
    }

    // Call 5. It stands beside call 4, since one body for both would take the count as a closure, in more lines.
    fn create_timer(mut self) -> Stepped
        ensures { result ≡ create_timer_model self }
    {
        let id = self.timercount;
        let verdict = room_verdict(id, TIMERS);
        if !verdict.is_done() {
            return self.refused(verdict);
        }
        self.timercount = id % TIMERS + 1;
        self.answered(id as u16, false)
    }

    // Call 6.
    fn acquire(mut self, m: u8) -> Stepped
        ensures { result ≡ acquire_model self m }
    {
        let scheduler = self.scheduler;
        let running = scheduler.running;
        let i = (m % MUTEXES) as usize;
        let row = scheduler.mutexes[i];
        let caller = scheduler.row(running);
        let verdict = acquire_verdict(self.started, self.mutexes, m, running, row, caller.priority);
        if !verdict.is_done() {
            return self.refused(verdict);
        }
        let after = scheduler.acquire(m);
        self.scheduler = after;
        self.answered(NOTHING, false)
    }

    // Call 7.
    fn release(mut self, m: u8) -> Stepped
        ensures { result ≡ release_model self m }
    {
        let scheduler = self.scheduler;
        let i = (m % MUTEXES) as usize;
        let row = scheduler.mutexes[i];
        let verdict = release_verdict(self.started, self.mutexes, m, scheduler.running, row.owner);
        if !verdict.is_done() {
            return self.refused(verdict);
        }
        let after = scheduler.release(m);
        self.scheduler = after;
        self.answered(NOTHING, false)
    }

    // Call 8.
    fn wait(mut self, c: u8, m: u8) -> Stepped
        ensures { result ≡ wait_model self c m }
    {
        let scheduler = self.scheduler;
        let running = scheduler.running;
        let i = (m % MUTEXES) as usize;
        let row = scheduler.mutexes[i];
        let j = (c % CONDITIONS) as usize;
        let tie = scheduler.ties[j];
        let mutexes = scheduler.mutexes;
        let owned = owned_by(mutexes, running);
        let ids = ids_verdict(self.started, self.conditions, c, self.mutexes, m);
        let held = held_verdict(m, running, row, owned, tie);
        let verdict = first_of(ids, held);
        if !verdict.is_done() {
            return self.refused(verdict);
        }
        let after = scheduler.wait(c, m);
        self.scheduler = after;
        self.answered(NOTHING, false)
    }

    // Call 9.
    fn signal(mut self, c: u8) -> Stepped
        ensures { result ≡ signal_model self c }
    {
        let verdict = id_verdict(self.started, self.conditions, c);
        if !verdict.is_done() {
            return self.refused(verdict);
        }
        let scheduler = self.scheduler;
        let signalled = scheduler.signal(c);
        let after = signalled.scheduler;
        self.scheduler = after;
        self.answered(signalled.left, false)
    }

    // Call 10. It stands beside call 9, since one body for both would take the signal as a closure, in more lines.
    fn broadcast(mut self, c: u8) -> Stepped
        ensures { result ≡ broadcast_model self c }
    {
        let verdict = id_verdict(self.started, self.conditions, c);
        if !verdict.is_done() {
            return self.refused(verdict);
        }
        let scheduler = self.scheduler;
        let woken = scheduler.broadcast(c);
        let after = woken.scheduler;
        self.scheduler = after;
        self.answered(woken.left, false)
    }

    // Call 11.
    fn start_timer(mut self, id: u8, c: u8, kind: Kind, v: Micros) -> Stepped
        ensures { result ≡ start_timer_model self id c kind v }
    {
        let i = (id % TIMERS) as usize;
        let row = self.timers[i];
        let ids = ids_verdict(self.started, self.timercount, id, self.conditions, c);
        let Some(first) = ticks_of(v) else {
            let refusal = first_of(ids, Verdict::OutOfRange);
            return self.refused(refusal);
        };
        let stopped = start_timer_verdict(row.state);
        let verdict = first_of(ids, stopped);
        if !verdict.is_done() {
            return self.refused(verdict);
        }
        let state = state_of(kind);
        let length = length_kept(kind, first);
        self.timers[i] = Timer {
            state,
            condition: c,
            length,
        };
        let wheel = self.wheel;
        let after = wheel.start(id, first);
        self.wheel = after;
        self.answered(NOTHING, false)
    }

    // Timer id stopped, and the ticks that were left to it.
    fn timer_stopped(mut self, id: u8) -> Effect
        ensures { result ≡ timer_stopped self id }
    {
        let i = (id % TIMERS) as usize;
        self.timers[i] = STOPPED_TIMER;
        let wheel = self.wheel;
        let after = wheel.stop(id);
        let left = wheel.left(id);
        self.wheel = after;
        let given = count_of(left);
        Effect {
            engine: self,
            given,
        }
    }

    // Call 12.
    fn stop_timer(self, id: u8) -> Stepped
        ensures { result ≡ stop_timer_model self id }
    {
        let i = (id % TIMERS) as usize;
        let row = self.timers[i];
        let ids = id_verdict(self.started, self.timercount, id);
        let state = stop_verdict(row.state);
        let verdict = first_of(ids, state);
        if !verdict.is_done() {
            return self.refused(verdict);
        }
        let effect = self.timer_stopped(id);
        let after = effect.engine;
        after.answered(effect.given, false)
    }

    // Timer id has come due: it signals its condition variable; a periodic one is started again, a one-shot is stopped.
    fn serve(mut self, id: u8) -> Engine
        ensures { result ≡ serve_model self id }
    {
        let i = (id % TIMERS) as usize;
        let row = self.timers[i];
        let scheduler = self.scheduler;
        let signalled = scheduler.signal(row.condition);
        let after = signalled.scheduler;
        self.scheduler = after;
        if row.state == PERIODIC {
            let wheel = self.wheel;
            let again = wheel.start(id, row.length);
            self.wheel = again;
            return self;
        }
        self.timers[i] = STOPPED_TIMER;
        self
    }

    // The timers that have come due are served in order of id; 32 are all there are.
    fn serve_all(self, due: Due) -> Effect
        ensures { result ≡ serve_all_model 32 0 self (ids_of due) }
    {
        let mut engine = self;
        let mut left = due;
        for given in 0..EXPIRIES {
            let id = left.first();
            if TIMERS <= id {
                return Effect { engine, given };
            }
            engine = engine.serve(id);
            left = left.rest();
        }
        Effect {
            engine,
            given: EXPIRIES,
        }
    }

    // Call 13.
    fn tick(mut self) -> Stepped
        ensures { result ≡ tick_model self }
    {
        if !self.started {
            return self.refused(Verdict::Stopped);
        }
        let wheel = self.wheel;
        let ticked = wheel.tick();
        let after = ticked.wheel;
        let due = ticked.due;
        self.wheel = after;
        self.count = ((self.count as u64 + 1) % TICK_COUNTS) as u32;
        let first = due.first();
        if TIMERS <= first {
            return self.answered(0, true);
        }
        let effect = self.serve_all(due);
        let served = effect.engine;
        served.answered(effect.given, true)
    }

    // A call: for an engine that describes a sound state the engine that describes document 01's next state, with its answer.
    pub fn step(self, call: Call) -> Stepped
        ensures always { result ≡ step_model self call }
        ensures means { (s : State) → sound s ≡ true → self ≡ engine_of s → result ≡ stepped_of (step s call) }
    {
        match call {
            Call::Start => self.start(),
            Call::CreateThread(base) => self.create_thread(base),
            Call::CreateMutex(ceiling) => self.create_mutex(ceiling),
            Call::CreateCondition => self.create_condition(),
            Call::CreateTimer => self.create_timer(),
            Call::Acquire(m) => self.acquire(m),
            Call::Release(m) => self.release(m),
            Call::Wait(c, m) => self.wait(c, m),
            Call::Signal(c) => self.signal(c),
            Call::Broadcast(c) => self.broadcast(c),
            Call::StartTimer(id, c, kind, v) => self.start_timer(id, c, kind, v),
            Call::StopTimer(id) => self.stop_timer(id),
            Call::Tick => self.tick(),
        }
    }

    // A row of wrong form or cut short: 17, and nothing changes.
    pub fn wrong_row(self) -> Stepped
        ensures always { result ≡ refused_model self WrongRow }
        ensures means { (s : State) → sound s ≡ true → self ≡ engine_of s → result ≡ stepped_of (step_decoded s None) }
    {
        self.refused(Verdict::WrongRow)
    }
}

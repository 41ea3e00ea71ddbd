// The kernel: boot, the thirteen calls, a call row, and whether the kernel is sound. Each call tests first that the kernel is sound, and hands
// back the kernel that follows with its answer.
#![tactic(auto)]

ghost use Rattle.std.specs.Prelude.{◌≡◌, true, ◌↔◌, Some, None};
ghost use Rattle.calls.specs.declared.Call.TheVariants.{Start, CreateThread, CreateMutex, CreateCondition, CreateTimer, Acquire, Release, Wait, Signal, Broadcast, StartTimer, StopTimer, Tick};
ghost use Rattle.calls.specs.Answers.{number_of};
ghost use Rattle.calls.specs.Rows.{decoded};
ghost use Rattle.rules.specs.State.{boot};
ghost use Rattle.kernel.specs.Kernels.{kernel_of, SoundKernel, refusal, Steps};

use calls::{Answer, Call, Kind, Row, Verdict, decode, number};
use limits::{NONE, NOTHING};
use sound_engine::judge;
use units::Micros;
use value_engine::Engine;

// A kernel is what its engine keeps. Any value of it is a kernel, sound or not.
#[derive(Clone, Copy)]
pub struct Kernel {
    pub engine: Engine,
}

// The kernel that follows, with its answer.
#[derive(Clone, Copy)]
pub struct Stepped {
    pub kernel: Kernel,
    pub answer: Answer,
}

impl Kernel {
    // The scheduler is stopped, thread 0 is ready, nothing else exists, the tick count is 0.
    pub fn boot() -> Kernel
        ensures { result ≡ kernel_of boot }
    {
        let engine = Engine::boot();
        Kernel { engine }
    }

    // Whether some sound page describes the kernel and all it keeps besides follows from that page: its page is sound, and the engine that is built
    // from that page is its own.
    pub fn is_sound(self) -> bool
        ensures { (result ≡ true) ↔ SoundKernel self }
    {
        judge(self.engine).is_ok()
    }

    // A refusal of a kernel that is not sound: given and running are 255, and nothing changes.
    fn refused(mut self, verdict: Verdict) -> Stepped
        ensures { result ≡ refusal self (number_of verdict) }
    {
        let answer = Answer {
            number: number(verdict),
            given: NOTHING,
            running: NONE,
        };
        Stepped {
            kernel: self,
            answer,
        }
    }

    // A call: 1 if the kernel is not sound, else document 01's step.
    pub fn step(mut self, call: Call) -> Stepped
        ensures { Steps self (Some call) result }
    {
        let right = self.is_sound();
        if !right {
            return self.refused(Verdict::NotSound);
        }
        let engine = self.engine;
        let stepped = engine.step(call);
        let after = stepped.engine;
        let answer = stepped.answer;
        self.engine = after;
        Stepped {
            kernel: self,
            answer,
        }
    }

    // A row of wrong form or cut short: 17, and the thread that runs on; 255 if the kernel is not sound.
    pub fn wrong_row(mut self) -> Stepped
        ensures { Steps self None result }
    {
        let sound = self.is_sound();
        if !sound {
            return self.refused(Verdict::WrongRow);
        }
        let engine = self.engine;
        let stepped = engine.wrong_row();
        let after = stepped.engine;
        let answer = stepped.answer;
        self.engine = after;
        Stepped {
            kernel: self,
            answer,
        }
    }

    // A row of 8 bytes: 17 if it is of wrong form, else its call.
    pub fn step_row(mut self, row: Row) -> Stepped
        ensures { Steps self (decoded row) result }
    {
        let decoded = decode(row);
        let Some(call) = decoded else {
            return self.wrong_row();
        };
        self.step(call)
    }

    // Call 1: the first of the highest ready queue runs.
    pub fn start(mut self) -> Stepped
        ensures { Steps self (Some Start) result }
    {
        self.step(Call::Start)
    }

    // Call 2: a thread of a base priority, which is ready.
    pub fn create_thread(mut self, base: u8) -> Stepped
        ensures { Steps self (Some (CreateThread base)) result }
    {
        self.step(Call::CreateThread(base))
    }

    // Call 3: a mutex of a ceiling, unowned.
    pub fn create_mutex(mut self, ceiling: u8) -> Stepped
        ensures { Steps self (Some (CreateMutex ceiling)) result }
    {
        self.step(Call::CreateMutex(ceiling))
    }

    // Call 4: a condition variable.
    pub fn create_condition(mut self) -> Stepped
        ensures { Steps self (Some CreateCondition) result }
    {
        self.step(Call::CreateCondition)
    }

    // Call 5: a timer, stopped.
    pub fn create_timer(mut self) -> Stepped
        ensures { Steps self (Some CreateTimer) result }
    {
        self.step(Call::CreateTimer)
    }

    // Call 6: the caller takes mutex m, or waits for it.
    pub fn acquire(mut self, m: u8) -> Stepped
        ensures { Steps self (Some (Acquire m)) result }
    {
        self.step(Call::Acquire(m))
    }

    // Call 7: the caller gives mutex m up.
    pub fn release(mut self, m: u8) -> Stepped
        ensures { Steps self (Some (Release m)) result }
    {
        self.step(Call::Release(m))
    }

    // Call 8: the caller gives mutex m up and waits on condition variable c.
    pub fn wait(mut self, c: u8, m: u8) -> Stepped
        ensures { Steps self (Some (Wait c m)) result }
    {
        self.step(Call::Wait(c, m))
    }

    // Call 9: the highest, earliest waiter leaves condition variable c.
    pub fn signal(mut self, c: u8) -> Stepped
        ensures { Steps self (Some (Signal c)) result }
    {
        self.step(Call::Signal(c))
    }

    // Call 10: all waiters leave condition variable c.
    pub fn broadcast(mut self, c: u8) -> Stepped
        ensures { Steps self (Some (Broadcast c)) result }
    {
        self.step(Call::Broadcast(c))
    }

    // Call 11: a timer is set to signal condition variable c once v microseconds have passed, and a periodic one again and again.
    pub fn start_timer(mut self, id: u8, c: u8, kind: Kind, v: Micros) -> Stepped
        ensures { Steps self (Some (StartTimer id c kind v)) result }
    {
        self.step(Call::StartTimer(id, c, kind, v))
    }

    // Call 12: a timer is stopped.
    pub fn stop_timer(mut self, id: u8) -> Stepped
        ensures { Steps self (Some (StopTimer id)) result }
    {
        self.step(Call::StopTimer(id))
    }

    // Call 13: the count advances, and the timers now due expire.
    pub fn tick(mut self) -> Stepped
        ensures { Steps self (Some Tick) result }
    {
        self.step(Call::Tick)
    }
}

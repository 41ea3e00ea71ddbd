// A row of 8 bytes as one call: taken apart, done or answered 17.
#![tactic(auto)]

ghost use Rattle.std.specs.Prelude.{◌≡◌, true, None};
ghost use Rattle.rules.specs.State.{State};
ghost use Rattle.rules.specs.Sound.{sound};
ghost use Rattle.rules.specs.Step.{step_row, step_decoded};
ghost use Rattle.value_engine.specs.Stands.{engine_of, stepped_of};
ghost use Rattle.place_step.specs.Turning.{wrong_row_model};
ghost use Rattle.run_rows.specs.Rows.{row_model, row_at};

use calls::{Answer, ROW, Row, Verdict, decode, number};
use limits::NOTHING;
use value_engine::{Engine, Stepped};

// The answer to a row that is cut short or of wrong form: 17, given 255, and the thread that runs on.
pub fn wrong_row(engine: Engine) -> Answer
    ensures always { result ≡ wrong_row_model engine }
    ensures means { (s : State) → sound s ≡ true → engine ≡ engine_of s → result ≡ (step_decoded s None).answer }
{
    let scheduler = engine.scheduler;
    Answer {
        number: number(Verdict::WrongRow),
        given: NOTHING,
        running: scheduler.running,
    }
}

// A row of 8 bytes: its call done, or answered 17 with nothing changed.
pub fn step_row(engine: Engine, row: Row) -> Stepped
    ensures always { result ≡ row_model engine row }
    ensures means { (s : State) → sound s ≡ true → engine ≡ engine_of s → result ≡ stepped_of (step_row s row) }
{
    let decoded = decode(row);
    let Some(call) = decoded else {
        let answer = wrong_row(engine);
        return Stepped { engine, answer };
    };
    engine.step(call)
}

// The 8 bytes from a place on; eight zeros, a row of wrong form, where there are fewer.
pub fn row_at(bytes: &[u8], at: usize) -> Row
    ensures { result ≡ row_at bytes.now at }
{
    if bytes.len() < ROW {
        return [0u8; ROW];
    }
    if bytes.len() - ROW < at {
        return [0u8; ROW];
    }
    [
        bytes[at],
        bytes[at + 1],
        bytes[at + 2],
        bytes[at + 3],
        bytes[at + 4],
        bytes[at + 5],
        bytes[at + 6],
        bytes[at + 7],
    ]
}

// For measuring: rows one after the other, and the sum of their answers; on an engine that stands in lent arrays, on one by value, and by the public calls of
// a kernel, each of which tests first that the kernel is sound.
#![tactic(auto)]

ghost use Rattle.std.specs.Prelude.{◌≡◌, ℕ};
ghost use Rattle.rules.specs.State.{boot};
ghost use Rattle.value_engine.specs.Stands.{engine_of};
ghost use Rattle.run_rows.specs.Many.{Reached};
ghost use Rattle.run_tally.specs.Sums.{add_weight, tally_on, tally_by, tally_from, Describes, tally_row, over_rows, repeated, sum_of};

use calls::{Answer, ROW, Row};
use kernel::Kernel;
use place_calls::Counts;
use place_clock::ClockWords;
use place_step::{cells_of, clock_words, counts_of, wheel_words};
use place_tables::Cells;
use run_rows::{row_at, step_row};
use std::num::wrapping_add_u64;
use value_engine::Engine;
use wheel::WheelWords;

// An engine, and the sum of the answers that it gave, modulo 2 to the power of 64.
#[derive(Clone, Copy)]
struct Tally {
    engine: Engine,
    sum: u64,
}

// The same of an engine in lent arrays: its counts, and the sum.
#[derive(Clone, Copy)]
struct Tallied {
    counts: Counts,
    sum: u64,
}

// A kernel, and the sum of the answers that its public calls gave.
#[derive(Clone, Copy)]
struct Called {
    kernel: Kernel,
    sum: u64,
}

// What given counts in a sum, above the 8 bits of running.
const GIVEN: u64 = 256;

// What the number of an answer counts in a sum, above the 16 bits of given.
const NUMBER: u64 = 16777216;

// A sum with one answer more.
fn add(sum: u64, answer: Answer) -> u64
    ensures { result ≡ add_weight sum answer }
{
    let number = answer.number as u64;
    let given = answer.given as u64;
    let running = answer.running as u64;
    wrapping_add_u64(sum, number * NUMBER + given * GIVEN + running)
}

// All whole rows, in order.
fn tally_rows(
    cells: &mut Cells,
    clock: &mut ClockWords,
    wheel: &mut WheelWords,
    mut counts: Counts,
    mut sum: u64,
    rows: &[u8],
) -> Tallied
    ensures { tally_on cells.new clock.new wheel.new result.counts result.sum ≡ over_rows (tally_on cells.old clock.old wheel.old counts sum) rows.now }
{
    let count = rows.len() / ROW;
    for i in 0..count {
        let row = row_at(rows, i * ROW);
        let done = place_step::step_row(cells, clock, wheel, counts, row);
        counts = done.counts;
        sum = add(sum, done.answer);
    }
    Tallied { counts, sum }
}

// All whole rows, in order, so many times.
fn tally_repeated(
    cells: &mut Cells,
    clock: &mut ClockWords,
    wheel: &mut WheelWords,
    counts: Counts,
    rows: &[u8],
    repeats: u64,
) -> Tallied
    ensures { tally_on cells.new clock.new wheel.new result.counts result.sum ≡ repeated repeats (tally_on cells.old clock.old wheel.old counts 0) rows.now }
{
    let mut reached = Tallied { counts, sum: 0 };
    for _ in 0..repeats {
        reached = tally_rows(cells, clock, wheel, reached.counts, reached.sum, rows);
    }
    reached
}

// From boot, the rows of a setup once, and then the rows of a loop so many times; the sum of the loop's answers.
pub fn run_rows(setup: &[u8], rows: &[u8], repeats: u64) -> u64
    ensures { result ≡ sum_of setup.now rows.now repeats }
{
    let engine = Engine::boot();
    let mut cells = cells_of(engine);
    let mut clock = clock_words(engine);
    let mut wheel = wheel_words(engine);
    let counts = counts_of(engine);
    let ready = tally_rows(&mut cells, &mut clock, &mut wheel, counts, 0, setup);
    let later = ready.counts;
    let ended = tally_repeated(&mut cells, &mut clock, &mut wheel, later, rows, repeats);
    ended.sum
}

// One row more, by value.
fn tally_row_by_value(tally: Tally, row: Row) -> Tally
    ensures { tally_by result ≡ tally_row (tally_by tally) row }
{
    let before = tally.engine;
    let stepped = step_row(before, row);
    let engine = stepped.engine;
    let sum = add(tally.sum, stepped.answer);
    Tally { engine, sum }
}

// One row more, by a public call.
fn tally_row_by_calls(called: Called, row: Row) -> Called
    ensures { Describes called → Describes result × (tally_from result ≡ tally_row (tally_from called) row) }
{
    let before = called.kernel;
    let stepped = before.step_row(row);
    let kernel = stepped.kernel;
    let sum = add(called.sum, stepped.answer);
    Called { kernel, sum }
}

// An engine in some form, with the sum of the answers that it gave.
trait Tallying: Copy {
    // The engine by value, and the sum.
    ghost reached: { Self → Reached ℕ };

    // What is asked of the form before a row, and kept by it.
    ghost Fit: { Self → Type 0 };

    // One row more.
    fn with_row(self, row: Row) -> Self
        ensures { Fit self → Fit result × (reached result ≡ tally_row (reached self) row) };

    // The engine as it is, with no answer yet.
    fn anew(self) -> Self
        ensures { Fit self → Fit result × (reached result ≡ record { engine = (reached self).engine; made = 0 }) };

    // The sum.
    fn total(self) -> u64
        ensures { result ≡ (reached self).made };
}

impl Tallying for Tally {
    ghost reached = { tally_by };

    ghost Fit = { λ t. Unit };

    fn with_row(self, row: Row) -> Tally {
        tally_row_by_value(self, row)
    }

    fn anew(self) -> Tally {
        Tally { sum: 0, ..self }
    }

    fn total(self) -> u64 {
        self.sum
    }
}

impl Tallying for Called {
    ghost reached = { tally_from };

    ghost Fit = { Describes };

    fn with_row(self, row: Row) -> Called {
        tally_row_by_calls(self, row)
    }

    fn anew(self) -> Called {
        Called { sum: 0, ..self }
    }

    fn total(self) -> u64 {
        self.sum
    }
}

// All whole rows, in order, in any form.
fn tally_rows_by<T: Tallying>(tally: T, rows: &[u8]) -> T
    ensures { T.Fit tally → T.Fit result × (T.reached result ≡ over_rows (T.reached tally) rows.now) }
{
    let mut reached = tally;
    let count = rows.len() / ROW;
    for i in 0..count {
        reached = reached.with_row(row_at(rows, i * ROW));
    }
    reached
}

// All whole rows, in order, so many times, in any form.
fn tally_repeated_by<T: Tallying>(tally: T, rows: &[u8], repeats: u64) -> T
    ensures { T.Fit tally → T.Fit result × (T.reached result ≡ repeated repeats (T.reached tally) rows.now) }
{
    let mut reached = tally;
    for _ in 0..repeats {
        reached = tally_rows_by(reached, rows);
    }
    reached
}

// The rows of a setup once, and then the rows of a loop so many times, in any form; the sum of the loop's answers.
fn sum_by<T: Tallying>(first: T, setup: &[u8], rows: &[u8], repeats: u64) -> u64
    ensures { T.Fit first → T.reached first ≡ record { engine = engine_of boot; made = 0 } → result ≡ sum_of setup.now rows.now repeats }
{
    let ready = tally_rows_by(first, setup);
    let begun = ready.anew();
    let ended = tally_repeated_by(begun, rows, repeats);
    ended.total()
}

// The same sum as `run_rows`, by value.
pub fn run_rows_by_value(setup: &[u8], rows: &[u8], repeats: u64) -> u64
    ensures { result ≡ sum_of setup.now rows.now repeats }
{
    let engine = Engine::boot();
    sum_by(Tally { engine, sum: 0 }, setup, rows, repeats)
}

// The same sum as `run_rows`, by public calls.
pub fn run_rows_by_calls(setup: &[u8], rows: &[u8], repeats: u64) -> u64
    ensures { result ≡ sum_of setup.now rows.now repeats }
{
    let kernel = Kernel::boot();
    sum_by(Called { kernel, sum: 0 }, setup, rows, repeats)
}

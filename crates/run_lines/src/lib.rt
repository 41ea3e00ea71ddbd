// The lines of rows, laid into a buffer: one line for each row's answer.
#![tactic(auto)]

ghost use Rattle.std.specs.Prelude.{◌≡◌, ◌≤◌, length};
ghost use Rattle.run_text.specs.Texts.{line_bytes};
ghost use Rattle.run_rows.specs.Many.{rows_in};
ghost use Rattle.run_lines.specs.Output.{next, add_line, added_to, at, rows_written, Room, rows_laid};

use calls::{Answer, ROW};
use place_step::{cells_of, clock_words, counts_of, engine_of, step_row, wheel_words};
use run_rows::row_at;
use run_text::{collect, line};
use std::num::wrapping_add_u64;
use value_engine::Engine;

// Lines that are collected: the number of the last one, and how much of the buffer is used.
#[derive(Clone, Copy)]
pub struct Lines {
    pub last: u64,
    pub used: usize,
}

// The engine after some rows, and their lines.
#[derive(Clone, Copy)]
pub struct Answered {
    pub engine: Engine,
    pub lines: Lines,
}

// The line of one answer more.
pub fn add_line(lines: Lines, answer: Answer, output: &mut [u8]) -> Lines
    ensures { (result ≡ add_line lines answer output.old) × (output.new ≡ added_to lines answer output.old) × (length (line_bytes (next lines.last) answer) ≤ 48) }
{
    let last = wrapping_add_u64(lines.last, 1);
    let text = line(last, answer);
    let used = collect(text, lines.used, output);
    Lines { last, used }
}

// The lines of the whole rows, in order. What a buffer that is too short gets is promised too; one with 48 bytes for each row gets them all.
// The engine stands in lent arrays and is changed in place.
pub fn answer_rows(engine: Engine, lines: Lines, bytes: &[u8], output: &mut [u8]) -> Answered
    ensures output_after { at result.engine result.lines output.new ≡ rows_written (at engine lines output.old) (rows_in bytes.now) }
    ensures output_after_2 { Room lines bytes.now output.old → at result.engine result.lines output.new ≡ rows_laid engine lines (rows_in bytes.now) output.old }
{
    let rows = bytes.len() / ROW;
    let mut cells = cells_of(engine);
    let mut clock = clock_words(engine);
    let mut wheel = wheel_words(engine);
    let mut counts = counts_of(engine);
    let mut made = lines;
    for i in 0..rows {
        let row = row_at(bytes, i * ROW);
        let done = step_row(&mut cells, &mut clock, &mut wheel, counts, row);
        counts = done.counts;
        made = add_line(made, done.answer, output);
    }
    Answered {
        engine: engine_of(&cells, &clock, &wheel, counts),
        lines: made,
    }
}

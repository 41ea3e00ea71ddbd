// A run, fed block after block: it begins at boot or at a record, answers the rows of its blocks wherever these are cut, and ends in a record.
#![tactic(auto)]

ghost use Rattle.std.specs.Prelude.{◌≡◌, take};
ghost use Rattle.run_text.specs.Texts.{collected, used_after};
ghost use Rattle.record_bytes.specs.Loading.{load, save};
ghost use Rattle.run_pieces.specs.Whole.{AtBoot, AtRecord};
ghost use Rattle.run_pieces.specs.Pieces.{run_of, run_at, opening, fed_run, fed_text, closed_run, closed_text, Gives, Ends, again_of, kept_then, Joins, Cuts};

use calls::{ROW, Row};
use kernel::Kernel;
use record::{Saved, load, save};
use run_lines::{Lines, add_line, answer_rows};
use run_rows::{row_at, wrong_row};
use run_text::{collect, heading, lay, refusal};
use value_engine::Engine;

// The bytes of a block.
pub const BLOCK: usize = 8192;

// What a run is fed with, or the first bytes of it.
pub type Block = [u8; BLOCK];

// The bytes that are kept of a row that is cut, at most.
const KEPT: usize = ROW - 1;

// The bytes of an array with room for a row and a block.
const JOINED: usize = ROW + BLOCK;

// The bytes of an output.
const OUTPUT: usize = 65536;

// Where the text of a piece goes.
pub type Output = [u8; OUTPUT];

// A run between two pieces: the engine, the number of the last line, whether the heading or the line of a refused start is written, the bytes of a
// row that is cut, with their count, and the answer to its start, 0 where that is not refused: the number that its line says. What gives the next run
// names each field, so that what is not carried on is seen.
#[derive(Clone, Copy)]
pub struct Run {
    engine: Engine,
    last: u64,
    opened: bool,
    kept: Row,
    count: usize,
    refused: u8,
}

// The run after a piece, and how much of the output is used.
#[derive(Clone, Copy)]
pub struct Fed {
    pub run: Run,
    pub used: usize,
}

// A record loaded and saved again: the answer to its load, and what the save gives.
#[derive(Clone, Copy)]
pub struct Again {
    pub answer: u8,
    pub saved: Saved,
}

// What stands first in a run's text, first in the buffer: the heading, or the line of a refused start; nothing where that is written.
fn open(opened: bool, refused: u8, output: &mut [u8]) -> usize
    ensures { (result ≡ used_after output.old 0 (opening opened refused)) × (output.new ≡ collected output.old 0 (opening opened refused)) }
{
    if opened {
        return 0;
    }
    if refused == 0 {
        return collect(heading(), 0, output);
    }
    collect(refusal(refused), 0, output)
}

// The kept bytes and then those of a piece, first in an array that has room for both, and how many they are.
fn join(kept: Row, count: usize, block: &Block, held: usize, joined: &mut [u8; JOINED]) -> usize
    ensures { Joins (kept_then kept count block.now held) joined.old result joined.new }
{
    let few = count.min(KEPT);
    let many = held.min(BLOCK);
    let first = lay(&kept[..few], 0, joined);
    lay(&block[..many], first, joined)
}

// The line of a row that is cut short, where so many bytes of one are kept; none where none are.
fn cut(engine: Engine, lines: Lines, count: usize, output: &mut [u8]) -> Lines
    ensures { Cuts engine count lines output.old result output.new }
{
    if count == 0 {
        return lines;
    }
    let answer = wrong_row(engine);
    add_line(lines, answer, output)
}

// The run of an engine and the answer to its start.
fn begin(engine: Engine, refused: u8) -> Run
    ensures { result ≡ run_of engine refused }
{
    let kept = [0u8; ROW];
    Run {
        engine,
        last: 0,
        opened: false,
        kept,
        count: 0,
        refused,
    }
}

impl Run {
    // The run at boot.
    pub fn at_boot() -> Run
        ensures { result ≡ run_at AtBoot }
    {
        let engine = Engine::boot();
        begin(engine, 0)
    }

    // The run at the state that a record loads as; a record that is refused is a run that is refused, with 15 or 1.
    pub fn at_record(bytes: &[u8]) -> Run
        ensures { result ≡ run_at (AtRecord bytes.now) }
    {
        let loaded = load(bytes);
        let kernel = loaded.kernel;
        let engine = kernel.engine;
        begin(engine, loaded.answer)
    }

    // The answer to the run's start, 0 where that is not refused.
    pub fn answer(self) -> u8
        ensures { result ≡ self.refused }
    {
        self.refused
    }

    // The bytes held of one block, after those that were fed before; a block may be cut anywhere. First in the output stands the text that follows.
    // It has room: with 7 bytes kept 8,199 bytes are at most 1,024 rows, whose lines and the heading take at most 49,200 bytes.
    pub fn feed(mut self, block: &Block, held: usize, output: &mut Output) -> Fed
        ensures { Gives (fed_run self (take held block.now)) (fed_text self (take held block.now)) output.old result output.new }
    {
        let used = open(self.opened, self.refused, output);
        if self.refused != 0 {
            self.opened = true;
            return Fed { run: self, used };
        }
        let mut joined = [0u8; JOINED];
        let kept = self.kept;
        let count = join(kept, self.count, block, held, &mut joined);
        let rest = row_at(&joined, count / ROW * ROW);
        let engine = self.engine;
        let lines = Lines {
            last: self.last,
            used,
        };
        let answered = answer_rows(engine, lines, &joined[..count], output);
        let after = answered.engine;
        let made = answered.lines;
        let run = Run {
            engine: after,
            last: made.last,
            opened: true,
            kept: rest,
            count: count % ROW,
            refused: self.refused,
        };
        Fed {
            run,
            used: made.used,
        }
    }

    // Nothing more is fed: the heading, if nothing was written, and the line of a row that is cut short.
    pub fn close(mut self, output: &mut Output) -> Fed
        ensures { Gives (closed_run self) (closed_text self) output.old result output.new }
    {
        let used = open(self.opened, self.refused, output);
        if self.refused != 0 {
            self.opened = true;
            return Fed { run: self, used };
        }
        let engine = self.engine;
        let lines = Lines {
            last: self.last,
            used,
        };
        let made = cut(engine, lines, self.count, output);
        let kept = [0u8; ROW];
        let run = Run {
            engine,
            last: made.last,
            opened: true,
            kept,
            count: 0,
            refused: self.refused,
        };
        Fed {
            run,
            used: made.used,
        }
    }

    // The record of the state that the run has reached, first in the buffer. A refused run refuses this too, and leaves the buffer.
    pub fn end(self, buffer: &mut [u8]) -> Saved
        ensures { Ends self buffer.old result buffer.new }
    {
        if self.refused != 0 {
            return Saved {
                answer: self.refused,
                length: 0,
            };
        }
        let engine = self.engine;
        let kernel = Kernel { engine };
        save(kernel, buffer)
    }
}

// A record loaded and saved again, first in the buffer.
pub fn save_again(bytes: &[u8], buffer: &mut [u8]) -> Again
    ensures { (result ≡ again_of bytes.now buffer.old) × (buffer.new ≡ (save (load bytes.now).state buffer.old).buffer) }
{
    let loaded = load(bytes);
    let kernel = loaded.kernel;
    let saved = save(kernel, buffer);
    Again {
        answer: loaded.answer,
        saved,
    }
}

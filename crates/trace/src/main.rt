// Writes what a run passes through: the saved record at its beginning, and the one after each row of its calls, one after the other.
//
//     trace CALLS START OUT    from the record in START, or `boot`; the records go to OUT
//
// A last row that is cut short counts as a row. Of a START that is refused one line is written on standard output, and OUT is not written. OUT is opened
// when the first record is made.
#![tactic(auto)]

use calls::ROW;
use program_files::{
    PATH, Said, System, argument, argument_count, fill, open_input, open_output, write,
};
use program_records::{record_of, start_named, write_record};
use run_pieces::{BLOCK, Run};
use std::io;
use std::io::{Read, Write};

// The bytes that the text of a piece has room in.
const OUTPUT: usize = 65536;

// The run after a row, or after what is left of one; its text is not wanted.
fn after_row(run: Run, block: &[u8; BLOCK], held: usize) -> Run {
    let mut text = [0u8; OUTPUT];
    run.feed(block, held, &mut text).run
}

// Reads row after row, feeds it to the run and writes the record after it.
// A proved loop has to end, and nothing says that an input does: so it takes as many turns as no trace uses up.
fn trace_rows(
    rt: &impl System,
    mut run: Run,
    input: &mut impl Read,
    calls: &[u8],
    output: &mut impl Write,
    out: &[u8],
) -> Result<(), Said> {
    for _ in 0..u64::MAX {
        let mut block = [0u8; BLOCK];
        let held = fill(rt, input, calls, &mut block[..ROW])?;
        if held == 0 {
            break;
        }
        run = after_row(run, &block, held);
        write_record(rt, record_of(rt, run), output, out)?;
        if held < ROW {
            break;
        }
    }
    Ok(())
}

// Traces into the file that is named third.
fn trace_into(rt: &impl System, run: Run, input: &mut impl Read, calls: &[u8]) -> Result<(), Said> {
    let mut buffer = [0u8; PATH];
    let length = argument(rt, 3, &mut buffer)?;
    let out = &buffer[..length];
    let first = record_of(rt, run);
    if first.saved.answer != 0 {
        return Err(Said);
    }
    let mut output = open_output(rt, out)?;
    write_record(rt, first, &mut output, out)?;
    trace_rows(rt, run, input, calls, &mut output, out)
}

// Traces the calls of the file that is named first.
fn trace_file(rt: &impl System, run: Run) -> Result<(), Said> {
    let mut buffer = [0u8; PATH];
    let length = argument(rt, 1, &mut buffer)?;
    let path = &buffer[..length];
    let mut input = open_input(rt, path)?;
    trace_into(rt, run, &mut input, path)
}

// Writes the one line of a refused run. Not inlined, so that the stack that it takes for its text is not taken while rows are traced.
#[inline(never)]
fn tell(rt: &impl System, run: Run) -> Result<(), Said> {
    let mut output = [0u8; OUTPUT];
    let closed = run.close(&mut output);
    write(
        rt,
        &mut io::writer(rt),
        b"standard output",
        &output[..closed.used],
    )
}

// The run from the record that is named second. Not inlined, so that the stack that it takes to read it is not taken while rows are traced.
#[inline(never)]
fn started(rt: &impl System) -> Result<Run, Said> {
    start_named(rt, 2)
}

// Traces from the record that is named second.
fn trace_from(rt: &impl System) -> Result<(), Said> {
    let run = started(rt)?;
    if run.answer() != 0 {
        return tell(rt, run);
    }
    trace_file(rt, run)
}

// What fails is said, and the exit status is 0 all the same.
fn main(rt: HostRuntime) {
    if argument_count(&rt) != 4 {
        let _ = eprintln!(rt; "usage: trace CALLS START OUT");
        return;
    }
    let _ = trace_from(&rt);
}

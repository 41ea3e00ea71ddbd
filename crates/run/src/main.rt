// Answers the calls of a file: the heading, and one line for each row. Any length is done in fixed memory: 8,192 bytes are read, fed to the run, and
// its text written, in turn.
//
//     run [CALLS]            from boot; the calls of standard input where no file is named
//     run CALLS START END    from the record in START, or `boot`; the last record goes to END, or nowhere for `-`
//
// Of a START that is refused the text is one line: CALLS is not read, and END is not written. END is opened when all calls are answered and its record
// is made.
#![tactic(auto)]

use program_files::{
    PATH, Said, System, argument, argument_count, fill, open_input, open_output, write,
};
use program_records::{record_of, start_named, write_record};
use run_pieces::{BLOCK, Run};
use std::io;
use std::io::Read;

// The bytes that the text of a piece has room in.
const OUTPUT: usize = 65536;

// Writes the first bytes of a run's text.
fn print_first(rt: &impl System, output: &[u8]) -> Result<(), Said> {
    write(rt, &mut io::writer(rt), b"standard output", output)
}

// Feeds the first bytes of a block to the run and writes its text.
fn run_some(rt: &impl System, run: Run, block: &[u8; BLOCK], held: usize) -> Result<Run, Said> {
    let mut output = [0u8; OUTPUT];
    let fed = run.feed(block, held, &mut output);
    print_first(rt, &output[..fed.used])?;
    Ok(fed.run)
}

// Closes the run and writes what is left of its text.
fn close(rt: &impl System, run: Run) -> Result<Run, Said> {
    let mut output = [0u8; OUTPUT];
    let closed = run.close(&mut output);
    print_first(rt, &output[..closed.used])?;
    Ok(closed.run)
}

// Runs all calls of an input, 8,192 bytes or what is left at a time, and closes the run.
// A proved loop has to end, and nothing says that an input does: so it takes as many turns as no run uses up.
fn run_all(
    rt: &impl System,
    mut run: Run,
    input: &mut impl Read,
    path: &[u8],
) -> Result<Run, Said> {
    for _ in 0..u64::MAX {
        let mut block = [0u8; BLOCK];
        let held = fill(rt, input, path, &mut block)?;
        run = run_some(rt, run, &block, held)?;
        if held < BLOCK {
            break;
        }
    }
    close(rt, run)
}

// Runs the calls of the file that is named first.
fn run_file(rt: &impl System, run: Run) -> Result<Run, Said> {
    let mut buffer = [0u8; PATH];
    let length = argument(rt, 1, &mut buffer)?;
    let path = &buffer[..length];
    let mut input = open_input(rt, path)?;
    run_all(rt, run, &mut input, path)
}

// Writes the record of a run into a file, which is opened when the record is made; none for `-`.
fn save_into(rt: &impl System, run: Run, path: &[u8]) -> Result<(), Said> {
    if path == b"-".as_slice() {
        return Ok(());
    }
    let record = record_of(rt, run);
    if record.saved.answer != 0 {
        return Err(Said);
    }
    let mut output = open_output(rt, path)?;
    write_record(rt, record, &mut output, path)
}

// Runs from the record that is named second, and saves into the file that is named third.
fn run_between(rt: &impl System) -> Result<Run, Said> {
    let first = start_named(rt, 2)?;
    if first.answer() != 0 {
        return close(rt, first);
    }
    let run = run_file(rt, first)?;
    let mut path = [0u8; PATH];
    let length = argument(rt, 3, &mut path)?;
    save_into(rt, run, &path[..length])?;
    Ok(run)
}

// Says how the program is used.
fn usage(rt: &HostRuntime) -> Said {
    let _ = eprintln!(rt; "usage: run [CALLS [START END]]");
    Said
}

// What fails is said, and the exit status is 0 all the same.
fn main(rt: HostRuntime) {
    let _ = match argument_count(&rt) {
        0 | 1 => run_all(&rt, Run::at_boot(), &mut rt.stdin(), b"standard input"),
        2 => run_file(&rt, Run::at_boot()),
        4 => run_between(&rt),
        _ => Err(usage(&rt)),
    };
}

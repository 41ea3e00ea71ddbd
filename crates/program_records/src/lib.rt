// What the programs share: a run begun at the record in a file or at boot, and the record that it ends in, written into a file.
#![tactic(auto)]

ghost use Rattle.std.specs.Prelude.{replicate};
ghost use Rattle.run_pieces.specs.Pieces.{Ends};

use program_files::{PATH, Said, System, argument, fill, open_input, say, within, write};
use record::{ROOM, Saved};
use run_pieces::Run;
use run_text::save_refusal;
use std::io::Write;

// A record in a buffer that is long enough for any, and what its save gave.
#[derive(Clone, Copy)]
pub struct Record {
    pub bytes: [u8; ROOM],
    pub saved: Saved,
}

// The run at the record in a file, or at boot for the word `boot`. No record has more than 536 bytes, so the first 1,024 of a file decide.
fn start_in(rt: &impl System, path: &[u8]) -> Result<Run, Said> {
    if path == b"boot".as_slice() {
        return Ok(Run::at_boot());
    }
    let mut input = open_input(rt, path)?;
    let mut buffer = [0u8; ROOM];
    let held = fill(rt, &mut input, path, &mut buffer)?;
    Ok(Run::at_record(&buffer[..held]))
}

// The run that the argument i names.
pub fn start_named(rt: &impl System, i: usize) -> Result<Run, Said> {
    let mut path = [0u8; PATH];
    let length = argument(rt, i, &mut path)?;
    start_in(rt, &path[..length])
}

// The record of a run; a save that is refused is said in one line on standard error. A record has at most 536 bytes.
pub fn record_of(rt: &impl System, run: Run) -> Record
    ensures { Ends run (replicate 1024 0) result.saved result.bytes }
{
    let mut bytes = [0u8; ROOM];
    let saved = run.end(&mut bytes);
    if saved.answer != 0 {
        say(rt, save_refusal(saved.answer));
    }
    Record { bytes, saved }
}

// Writes a record, or says that it fails. Of a save that was refused, which was said, there is none.
pub fn write_record(
    rt: &impl System,
    record: Record,
    output: &mut impl Write,
    path: &[u8],
) -> Result<(), Said> {
    if record.saved.answer != 0 {
        return Err(Said);
    }
    let length = within(record.saved.length as usize, &record.bytes);
    write(rt, output, path, &record.bytes[..length])
}

// Loads each record of a bundle and saves what load hands back.
//
//     records BUNDLE [OUT]
//
// A bundle has for each record a length of 16 bits, low byte first, and then that many bytes. For each record there is one line on standard
// output: its number from 1, the answer to its load, and the length of the save. The saves go to OUT, one after the other.
#![tactic(auto)]

ghost use Rattle.std.specs.Prelude.{◌+◌, ◌*◌, ◌≡◌, IfOk};
ghost use Rattle.program_files.specs.Counts.{IsPrefixLen};

use program_files::{
    PATH, Said, System, argument, argument_count, complain, fill, open_input, open_output, print,
    say, within, write,
};
use record::ROOM;
use run_pieces::{BLOCK, save_again};
use run_text::{entry, save_refusal};
use std::io;
use std::io::{Read, Write};

// The bytes of a length.
const LENGTH: usize = 2;

// A length of 16 bits from its two bytes.
fn length_of(low: u8, high: u8) -> usize
    ensures { result ≡ low + high * 256 }
{
    usize::from(u16::from_le_bytes([low, high]))
}

// The bundle ends within a record: that is said.
fn cut_short(rt: &impl System, path: &[u8]) -> Said {
    complain(rt, path, b": the last record is cut short\n");
    Said
}

// Fills the buffer. An input that ends before, or that cannot be read, is said.
fn read_whole(
    rt: &impl System,
    input: &mut impl Read,
    path: &[u8],
    buffer: &mut [u8],
) -> Result<(), Said> {
    if fill(rt, input, path, buffer)? < buffer.len() {
        return Err(cut_short(rt, path));
    }
    Ok(())
}

// Reads the length of the next record; there is none where the bundle ends.
fn read_length(
    rt: &impl System,
    input: &mut impl Read,
    path: &[u8],
) -> Result<Option<usize>, Said> {
    let mut bytes = [0u8; LENGTH];
    match fill(rt, input, path, &mut bytes)? {
        0 => Ok(None),
        LENGTH => Ok(Some(length_of(bytes[0], bytes[1]))),
        _ => Err(cut_short(rt, path)),
    }
}

// Reads a record, or so much of it as the buffer has room for: how many bytes that is.
fn read_first(
    rt: &impl System,
    input: &mut impl Read,
    path: &[u8],
    length: usize,
    buffer: &mut [u8],
) -> Result<usize, Said>
    ensures { IfOk result (λ held. IsPrefixLen held buffer.new) }
{
    let first = within(length, buffer);
    read_whole(rt, input, path, &mut buffer[..first])?;
    Ok(first)
}

// Reads past at most 8,192 bytes.
fn skip_some(
    rt: &impl System,
    input: &mut impl Read,
    path: &[u8],
    count: usize,
) -> Result<(), Said> {
    let mut buffer = [0u8; BLOCK];
    let part = within(count, &buffer);
    read_whole(rt, input, path, &mut buffer[..part])
}

// Reads past what a record has beyond its first 8,192 bytes.
fn skip(rt: &impl System, input: &mut impl Read, path: &[u8], length: usize) -> Result<(), Said> {
    let beyond = length.saturating_sub(BLOCK);
    for _ in 0..beyond / BLOCK {
        skip_some(rt, input, path, BLOCK)?;
    }
    let rest = beyond % BLOCK;
    // Most records are no longer than a block; for these none is made to read into.
    if rest == 0 {
        return Ok(());
    }
    skip_some(rt, input, path, rest)
}

// Loads a record and saves what load hands back, prints its line and writes the save. A save that is refused is said.
fn answer_record(
    rt: &impl System,
    number: u64,
    bytes: &[u8],
    output: &mut impl Write,
    out: &[u8],
) -> Result<(), Said> {
    let mut buffer = [0u8; ROOM];
    let again = save_again(bytes, &mut buffer);
    let saved = again.saved;
    print(rt, entry(number, again.answer, saved.length))?;
    if saved.answer != 0 {
        say(rt, save_refusal(saved.answer));
        return Err(Said);
    }
    let length = within(saved.length as usize, &buffer);
    write(rt, output, out, &buffer[..length])
}

// Reads a record of this length and answers it. No record has more than 536 bytes, so the first 8,192 bytes of a longer one decide.
fn read_record(
    rt: &impl System,
    number: u64,
    length: usize,
    input: &mut impl Read,
    path: &[u8],
    output: &mut impl Write,
    out: &[u8],
) -> Result<(), Said> {
    let mut buffer = [0u8; BLOCK];
    let held = read_first(rt, input, path, length, &mut buffer)?;
    skip(rt, input, path, length)?;
    answer_record(rt, number, &buffer[..held], output, out)
}

// Answers record after record. A proved loop has to end, and nothing says that an input does: so it takes as many turns as no bundle uses up.
fn read_all(
    rt: &impl System,
    input: &mut impl Read,
    path: &[u8],
    output: &mut impl Write,
    out: &[u8],
) -> Result<(), Said> {
    for number in 1..=u64::MAX {
        let Some(length) = read_length(rt, input, path)? else {
            break;
        };
        read_record(rt, number, length, input, path, output, out)?;
    }
    Ok(())
}

// Answers the records of a bundle; the saves go to the file that is named second, if one is.
fn read_into(rt: &impl System, input: &mut impl Read, path: &[u8]) -> Result<(), Said> {
    if argument_count(rt) == 2 {
        return read_all(rt, input, path, &mut io::sink(), b"");
    }
    let mut buffer = [0u8; PATH];
    let length = argument(rt, 2, &mut buffer)?;
    let out = &buffer[..length];
    let mut output = open_output(rt, out)?;
    read_all(rt, input, path, &mut output, out)
}

// Answers the bundle that is named first.
fn read_bundle(rt: &impl System) -> Result<(), Said> {
    let mut buffer = [0u8; PATH];
    let length = argument(rt, 1, &mut buffer)?;
    let path = &buffer[..length];
    let mut input = open_input(rt, path)?;
    read_into(rt, &mut input, path)
}

// What fails is said, and the exit status is 0 all the same.
fn main(rt: HostRuntime) {
    let count = argument_count(&rt);
    if count < 2 || 3 < count {
        let _ = eprintln!(rt; "usage: records BUNDLE [OUT]");
        return;
    }
    let _ = read_bundle(&rt);
}

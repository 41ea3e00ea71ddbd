// What the programs share: their arguments, and reading and writing files.
// A file in trouble is said in one line on standard error.
#![tactic(auto)]

ghost use Rattle.std.specs.Prelude.{◌-◌, ◌≤◌, min, ◌≡◌, length, IfOk, MatchResult};
ghost use Rattle.program_files.specs.Counts.{IsPrefixLen};

use run_text::{TEXT, Text};
use std::env::{Env, FillError};
use std::fmt::InlineText;
use std::fs::Files;
use std::io::{Read, Write};
use std::{fs, io, str};

// The bytes that an argument has room in, as many as hold any path.
pub const PATH: usize = 4096;

// The bytes that the text of an error has room in.
const ERROR: usize = 128;

// The system's numbers of three errors: an argument that is missing, a name that is too long, and a path that is not UTF-8.
const INVALID: i32 = 22;

const TOO_LONG: i32 = 36;

const NOT_TEXT: i32 = 84;

// What the programs use of the system: arguments, files and standard output, and standard error as bytes.
pub trait System: Env + Files + Print {
    type Errors: Write + Drop;

    fn errors(&self) -> Self::Errors;
}

impl System for HostRuntime {
    type Errors = io::Stderr;

    fn errors(&self) -> io::Stderr {
        self.stderr()
    }
}

// The error of what the programs do with the system: what failed was said on standard error.
#[derive(Clone, Copy)]
pub struct Said;

// A read failed after so many bytes, and that was said.
#[derive(Clone, Copy)]
pub struct Unread {
    pub held: usize,
}

impl From<Unread> for Said {
    fn from(_unread: Unread) -> Said {
        Said
    }
}

// Writes a line to standard error: what failed, and the error in the system's words, without its number.
fn say_error(rt: &impl System, what: &[u8], error: io::Error) -> Said {
    let shown: InlineText<ERROR> = InlineText::of(error);
    let text = shown.as_str();
    let words = text
        .split_once(" (os error ")
        .map_or(text, |(words, _)| words);
    complain(rt, what, b": ");
    complain(rt, words.as_bytes(), b"\n");
    Said
}

// Reads until the buffer is full or the input ends: how many bytes it holds then. A read that fails is said.
pub fn fill(
    rt: &impl System,
    input: &mut impl Read,
    path: &[u8],
    buffer: &mut [u8],
) -> Result<usize, Unread>
    ensures { MatchResult result (λ held. IsPrefixLen held buffer.new) (λ unread. IsPrefixLen unread.held buffer.new) }
{
    let mut held: usize = 0;
    // No index is counted: what comes moves it on.
    while held < buffer.len() {
        match input.read(&mut buffer[held..]) {
            Ok(0) => break,
            Ok(more) => held += more,
            Err(error) => {
                say_error(rt, path, error);
                return Err(Unread { held });
            }
        }
    }
    Ok(held)
}

// How many of the bytes a count takes: all where it is larger.
pub fn within(count: usize, bytes: &[u8]) -> usize
    ensures counts { IsPrefixLen result bytes.now }
    ensures smaller { result ≡ min count (length bytes.now) }
{
    count.min(bytes.len())
}

// Writes all the bytes, or says that it fails.
pub fn write(
    rt: &impl System,
    output: &mut impl Write,
    path: &[u8],
    bytes: &[u8],
) -> Result<(), Said> {
    output
        .write_all(bytes)
        .map_err(|error| say_error(rt, path, error))
}

// Writes a text, or says that it fails.
fn write_text(
    rt: &impl System,
    text: Text,
    output: &mut impl Write,
    path: &[u8],
) -> Result<(), Said> {
    write(rt, output, path, &text.bytes[text.from % TEXT..])
}

// Writes a text to standard output, or says that it fails.
pub fn print(rt: &impl System, text: Text) -> Result<(), Said> {
    write_text(rt, text, &mut io::writer(rt), b"standard output")
}

// Writes a text to standard error.
pub fn say(rt: &impl System, text: Text) {
    let _ = write_text(rt, text, &mut rt.errors(), b"standard error");
}

// Writes a line to standard error: a path, and what is wrong with it.
pub fn complain(rt: &impl System, path: &[u8], what: &[u8]) {
    let _ = rt.errors().write_all(path);
    let _ = rt.errors().write_all(what);
}

// How many arguments there are, the program's name among them.
pub fn argument_count(rt: &impl System) -> usize {
    for i in 0..usize::MAX {
        if let Err(FillError::NotPresent) = rt.arg(i, &mut []) {
            return i;
        }
    }
    usize::MAX
}

// An argument's error as one of the system's.
fn error_of(error: FillError) -> io::Error {
    io::Error::from_raw_os_error(match error {
        FillError::NotPresent => INVALID,
        FillError::TooLong => TOO_LONG,
    })
}

// The length of the argument i, which is put first in the buffer; one that is missing or too long is said.
pub fn argument(rt: &impl System, i: usize, path: &mut [u8]) -> Result<usize, Said>
    ensures { IfOk result (λ length. IsPrefixLen length path.new) }
{
    rt.arg(i, path)
        .map_err(|error| say_error(rt, b"an argument", error_of(error)))
}

// A path as text. One that is not UTF-8 names no file here.
fn text_of(path: &[u8]) -> io::Result<&str> {
    str::from_utf8(path).map_err(|_| io::Error::from_raw_os_error(NOT_TEXT))
}

// Opens a file for reading; one that cannot be opened is said.
pub fn open_input<R: System>(rt: &R, path: &[u8]) -> Result<R::File, Said> {
    text_of(path)
        .and_then(|text| fs::open(rt, text))
        .map_err(|error| say_error(rt, path, error))
}

// Opens a file for writing, emptied or new; one that cannot be opened is said.
pub fn open_output<R: System>(rt: &R, path: &[u8]) -> Result<R::File, Said> {
    text_of(path)
        .and_then(|text| fs::create(rt, text))
        .map_err(|error| say_error(rt, path, error))
}

// The text of a run: the heading, and one line for each row, its number and the three numbers of its answer, in decimal; of a record or a save that
// is refused, and of a record in a list of them.
// A text is put together from its last byte to its first, since a number gives its last digit first.
#![tactic(auto)]

ghost use Rattle.std.specs.Prelude.{◌≡◌, [], ◌+◌, ◌%◌, ◌≤◌, length};
ghost use Rattle.run_text.specs.Texts.{text_of, put_model, put_all, digits, line_bytes, heading_bytes, refusal_bytes, save_refusal_bytes, entry_bytes, bytes_of, collected, used_after};

use calls::Answer;

// The bytes of a text.
pub const TEXT: usize = 48;

// The place of the last of them.
const LAST: usize = TEXT - 1;

// The place of the first byte of the heading, which has 26.
const HEADING_FROM: usize = TEXT - 26;

// The base of the decimal numbers.
const TEN: u64 = 10;

// A short text: the bytes from a place on, with zeros in front of them.
#[derive(Clone, Copy)]
pub struct Text {
    pub bytes: [u8; TEXT],
    pub from: usize,
}

// The text of no bytes.
fn empty() -> Text
    ensures { result ≡ text_of [] }
{
    let bytes = [0u8; TEXT];
    Text { bytes, from: TEXT }
}

// The place in front of a place, from 0 to 47; that in front of 0 is 47.
fn place_in_front(from: usize) -> usize
    ensures { result ≡ (from % 48 + 47) % 48 }
{
    if TEXT < from {
        return (from % TEXT + LAST) % TEXT;
    }
    if from == 0 {
        return LAST;
    }
    from - 1
}

// One byte more in front; a text of 48 bytes begins again at the end.
fn put(text: Text, byte: u8) -> Text
    ensures { result ≡ put_model text byte }
{
    let from = place_in_front(text.from);
    let mut bytes = text.bytes;
    bytes[from] = byte;
    Text { bytes, from }
}

// The last digit of a number.
fn digit(n: u64) -> u8
    ensures { result ≡ 48 + n % 10 }
{
    b'0' + (n % TEN) as u8
}

// The digits of a number in front.
fn put_number(text: Text, n: u64) -> Text
    ensures { result ≡ put_all text (digits n) }
{
    let mut made = text;
    let mut rest = n;
    // No index is counted: a digit is taken off each time.
    while TEN <= rest {
        made = put(made, digit(rest));
        rest /= TEN;
    }
    put(made, digit(rest))
}

// The bytes of a slice in front.
fn put_bytes(text: Text, bytes: &[u8]) -> Text
    ensures { result ≡ put_all text bytes.now }
{
    bytes.iter().rev().copied().fold(text, put)
}

// The line of row n: n and the three numbers of the answer, with a blank between, and a line feed.
pub fn line(n: u64, answer: Answer) -> Text
    ensures { (result ≡ text_of (line_bytes n answer)) × (length (line_bytes n answer) ≤ 48) }
{
    let end = put(empty(), b'\n');
    let running = put_number(end, answer.running as u64);
    let third = put(running, b' ');
    let given = put_number(third, answer.given as u64);
    let second = put(given, b' ');
    let number = put_number(second, answer.number as u64);
    let first = put(number, b' ');
    put_number(first, n)
}

// The heading of a run.
pub fn heading() -> Text
    ensures { result ≡ text_of heading_bytes }
{
    let bytes = *b"\0\0\0\0\0\0\0\0\0\0\0\0\0\0\0\0\0\0\0\0\0\0line answer given running\n";
    Text {
        bytes,
        from: HEADING_FROM,
    }
}

// The line of a record that is refused: `record refused`, a blank, the answer, and a line feed.
pub fn refusal(answer: u8) -> Text
    ensures { result ≡ text_of (refusal_bytes answer) }
{
    let end = put(empty(), b'\n');
    let number = put_number(end, answer as u64);
    put_bytes(number, b"record refused ")
}

// The line of a save that is refused: `save refused`, a blank, the answer, and a line feed. Its words alone are not those of `refusal`, three lines long.
pub fn save_refusal(answer: u8) -> Text
    ensures { result ≡ text_of (save_refusal_bytes answer) }
{
    let end = put(empty(), b'\n');
    let digits = put_number(end, answer as u64);
    put_bytes(digits, b"save refused ")
}

// The line of record n: n, the answer to its load and the length of its save, with a blank between, and a line feed.
pub fn entry(n: u64, answer: u8, length: u16) -> Text
    ensures { result ≡ text_of (entry_bytes n answer length) }
{
    let end = put(empty(), b'\n');
    let third = put_number(end, length as u64);
    let second = put(third, b' ');
    let number = put_number(second, answer as u64);
    let first = put(number, b' ');
    put_number(first, n)
}

// Bytes after the used part of a buffer, and how much of it is used then. Bytes that the buffer has no room for are left out.
pub fn lay(bytes: &[u8], used: usize, output: &mut [u8]) -> usize
    ensures { (result ≡ used_after output.old used bytes.now) × (output.new ≡ collected output.old used bytes.now) }
{
    let size = bytes.len();
    if output.len() < size || output.len() - size < used {
        return used;
    }
    output[used..used + size].copy_from_slice(bytes);
    used + size
}

// A text after the used part of a buffer, and how much of it is used then. A text that the buffer has no room for is left out.
pub fn collect(text: Text, used: usize, output: &mut [u8]) -> usize
    ensures { (result ≡ used_after output.old used (bytes_of text)) × (output.new ≡ collected output.old used (bytes_of text)) }
{
    if TEXT < text.from {
        return used;
    }
    lay(&text.bytes[text.from..], used, output)
}

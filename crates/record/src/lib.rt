// The saved record: a kernel loaded from bytes, and a kernel saved into a lent buffer.
#![tactic(auto)]

ghost use Rattle.std.specs.Prelude.{◌≡◌};
ghost use Rattle.calls.specs.Answers.{number_of};
ghost use Rattle.record_bytes.specs.Loading.{load};
ghost use Rattle.record.specs.Records.{refused_model, loaded_of, Saves};

use calls::{Verdict, number};
use kernel::Kernel;
use page_building::build;
use record_reading::open;
use record_writing::{total, write};
use sound_engine::judge;
use sound_page::sound;

// A buffer of so many bytes has room for any record.
pub const ROOM: usize = 1024;

// What a load gives: its answer, and the kernel, which is boot's where the record is refused; since a refused load gives one too, this is no Result.
#[derive(Clone, Copy)]
pub struct Loaded {
    pub answer: u8,
    pub kernel: Kernel,
}

// What a save gives: its answer, and the length written, 0 where it is refused: document 01's two numbers, and so no Result.
#[derive(Clone, Copy)]
pub struct Saved {
    pub answer: u8,
    pub length: u16,
}

// A refused load: the boot state.
fn refused(verdict: Verdict) -> Loaded
    ensures { result ≡ refused_model (number_of verdict) }
{
    let kernel = Kernel::boot();
    Loaded {
        answer: number(verdict),
        kernel,
    }
}

// The kernel of a record: 15 if it is of wrong form, then 1 if it is not sound.
pub fn load(bytes: &[u8]) -> Loaded
    ensures { result ≡ loaded_of (load bytes.now) }
{
    let Some(page) = open(bytes) else {
        return refused(Verdict::WrongRecord);
    };
    let right = sound(page);
    if !right {
        return refused(Verdict::NotSound);
    }
    let engine = build(page);
    let kernel = Kernel { engine };
    Loaded { answer: 0, kernel }
}

// The record of a kernel, written first in the buffer: 1 if the kernel is not sound, then 16 if the buffer is shorter than the record.
pub fn save(kernel: Kernel, buffer: &mut [u8]) -> Saved
    ensures { Saves kernel buffer.old result buffer.new }
{
    let Ok(page) = judge(kernel.engine) else {
        return Saved {
            answer: number(Verdict::NotSound),
            length: 0,
        };
    };
    let length = total(page);
    if buffer.len() < length as usize {
        return Saved {
            answer: number(Verdict::BufferShort),
            length: 0,
        };
    }
    write(page, buffer);
    Saved { answer: 0, length }
}

// Counts the work of a tick of a lent wheel, the timers that it visits, with timers on the spoke that it visits, due or with a turn left, and on another.
// The work is the number of timers on that spoke, however many hang elsewhere.
#![tactic(auto)]

use limits::TIMERS;
use units::Ticks;
use wheel::{WheelWords, empty_words, start, tick};

// The timers from one id up to another started for n ticks.
fn start_some(wheel: &mut WheelWords, from: u8, to: u8, n: Ticks) {
    for id in from..to {
        start(wheel, id, n);
    }
}

// A number and the character after it.
fn write_number(rt: &impl Print, n: u8, after: char) {
    let _ = print!(rt; "{n}{after}");
}

// A line: the timers below `due` come due at the tick, those below `on` have a turn left, those below `all` hang on another spoke.
fn write_line(rt: &impl Print, due: u8, on: u8, all: u8) {
    let mut wheel = empty_words(0);
    start_some(&mut wheel, 0, due, Ticks(1));
    start_some(&mut wheel, due, on, Ticks(65));
    start_some(&mut wheel, on, all, Ticks(2));
    let turned = tick(&mut wheel);
    write_number(rt, on, ' ');
    write_number(rt, all, ' ');
    write_number(rt, turned.visits, '\n');
}

fn main(rt: HostRuntime) {
    let _ = println!(rt; "on the spoke, in all, visits");
    write_line(&rt, 0, 0, 0);
    for on in 0..=TIMERS {
        write_line(&rt, on / 2, on, TIMERS);
    }
}

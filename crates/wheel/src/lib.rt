// The timer wheel: at most 32 timers on 64 spokes. A spoke is a set of timers, a bit for each id, so that a wheel is determined by its
// position and by each timer's ticks left, and timers come due in order of id. A wheel is one array of words, which may be lent and changed in place;
// specs/Inside.antt says where each table stands in it.
#![tactic(auto)]

ghost use Rattle.std.specs.Prelude.{◌≡◌, ◌↔◌, true};
ghost use Rattle.wheel.specs.Hung.{Hung, Good, empty, started, stopped, left, due};
ghost use Rattle.wheel.specs.Inside.{bit_of};
ghost use Rattle.wheel.specs.Promise.{wheel_in, ticked_with, wheel_of, started_in, stopped_in, left_in, ticked_in, ticked_of, ids_of, without_first, first, rest};

use entries::load;
use limits::{NONE, TIMER_ROWS, TIMERS};
use units::Ticks;

// The spokes.
const SPOKES: u32 = 64;

// The spoke in front of the first.
const LAST_SPOKE: u32 = SPOKES - 1;

// The numbers that a count of ticks can be.
const TICK_NUMBERS: u64 = 65536;

// How many words a wheel has.
pub const WHEEL_WORDS: usize = 129;

// The words of a wheel.
pub type WheelWords = [u32; WHEEL_WORDS];

// Where the whole turns left to each timer stand, 0 for a stopped one; the spokes, each with the timers that hang on it, stand from 0 on.
const TURNS_FROM: usize = 64;

// Where the spoke of each timer stands, 255 for a stopped one.
const SPOKE_FROM: usize = 96;

// Where the position stands, the spoke last visited: the tick count mod 64.
const POSITION_AT: usize = 128;

// A wheel: its words and nothing else.
#[derive(Clone, Copy)]
pub struct Wheel {
    words: WheelWords,
}

// The timers that came due at a tick, a bit for each id.
#[derive(Clone, Copy)]
pub struct Due {
    ids: u32,
}

// What a tick gives: the next wheel, the timers that came due, and how many timers were visited.
#[derive(Clone, Copy)]
pub struct Ticked {
    pub wheel: Wheel,
    pub due: Due,
    pub visits: u8,
}

// What a tick of a lent wheel gives: the timers that came due, and how many timers were visited.
#[derive(Clone, Copy)]
pub struct Turned {
    pub due: Due,
    pub visits: u8,
}

// The bit of a timer in a set of timers.
fn bit(id: u8) -> u32
    ensures { result ≡ bit_of id }
{
    if TIMERS <= id {
        return 0;
    }
    1u32 << id
}

// ---- a wheel that is lent

// The words of a wheel with every timer stopped, at this tick count.
pub fn empty_words(count: u32) -> WheelWords
    ensures { wheel_in result ≡ wheel_of (empty count) }
{
    let mut words = [0u32; WHEEL_WORDS];
    for i in 0..TIMER_ROWS {
        words[SPOKE_FROM + i] = NONE as u32;
    }
    words[POSITION_AT] = count % SPOKES;
    words
}

// The timer set for n ticks. Nothing changes for an id out of range, a running timer, or no ticks.
pub fn start(wheel: &mut WheelWords, id: u8, n: Ticks)
    ensures always { wheel_in wheel.new ≡ started_in (wheel_in wheel.old) id n.0 }
    ensures hung { (h : Hung) → Good h → wheel_in wheel.old ≡ wheel_of h → wheel_in wheel.new ≡ wheel_of (started h id n.0) }
{
    if TIMERS <= id {
        return;
    }
    let i = id as usize;
    if wheel[SPOKE_FROM + i] < SPOKES {
        return;
    }
    let r = n.0;
    if r == 0 {
        return;
    }
    let at = (wheel[POSITION_AT] % SPOKES + r as u32) % SPOKES;
    let s = at as usize;
    wheel[s] = wheel[s] | bit(id);
    wheel[TURNS_FROM + i] = (r as u32 - 1) / SPOKES;
    wheel[SPOKE_FROM + i] = at;
}

// The timer stopped. Nothing changes for an id out of range or a stopped timer.
pub fn stop(wheel: &mut WheelWords, id: u8)
    ensures always { wheel_in wheel.new ≡ stopped_in (wheel_in wheel.old) id }
    ensures hung { (h : Hung) → Good h → wheel_in wheel.old ≡ wheel_of h → wheel_in wheel.new ≡ wheel_of (stopped h id) }
{
    if TIMERS <= id {
        return;
    }
    let i = id as usize;
    let at = wheel[SPOKE_FROM + i];
    if SPOKES <= at {
        return;
    }
    let s = at as usize;
    wheel[s] = wheel[s] ^ bit(id);
    wheel[TURNS_FROM + i] = 0;
    wheel[SPOKE_FROM + i] = NONE as u32;
}

// The ticks left to a timer: 0 for a stopped one, and for an id out of range.
pub fn left(wheel: &WheelWords, id: u8) -> Ticks
    ensures always { result.0 ≡ left_in (wheel_in wheel.now) id }
    ensures hung { (h : Hung) → Good h → wheel_in wheel.now ≡ wheel_of h → result.0 ≡ left h id }
{
    if TIMERS <= id {
        return Ticks(0);
    }
    let i = id as usize;
    let at = wheel[SPOKE_FROM + i];
    if SPOKES <= at {
        return Ticks(0);
    }
    let turns = load(wheel, TURNS_FROM + i, 0) as u64;
    let way = (at + LAST_SPOKE - wheel[POSITION_AT] % SPOKES) % SPOKES;
    Ticks(((turns * SPOKES as u64 + way as u64 + 1) % TICK_NUMBERS) as u16)
}

// Moves to the next spoke, and visits the timers on it: one with turns left loses a turn, one with none comes due and is stopped.
pub fn tick(wheel: &mut WheelWords) -> Turned
    ensures always { ticked_with (wheel_in wheel.new) result ≡ ticked_in (wheel_in wheel.old) }
    ensures hung { (h : Hung) → Good h → wheel_in wheel.old ≡ wheel_of h → ticked_with (wheel_in wheel.new) result ≡ ticked_of h }
    ensures order { (h : Hung) → Good h → wheel_in wheel.old ≡ wheel_of h → ids_of result.due ≡ due h }
{
    let from = wheel[POSITION_AT] % SPOKES;
    let at = (from + 1) % SPOKES;
    let here = at as usize;
    wheel[POSITION_AT] = at;
    let mut rest = load(wheel, here, 0);
    let mut due: u32 = 0;
    let mut visits: u8 = 0;
    // No index is counted: the lowest bit that is set is taken off each time.
    while 0 < rest {
        let id = u32::trailing_zeros(rest) as u8;
        let i = id as usize;
        if wheel[TURNS_FROM + i] == 0 {
            wheel[SPOKE_FROM + i] = NONE as u32;
            due = due | bit(id);
        } else {
            wheel[TURNS_FROM + i] -= 1;
        }
        rest = rest & (rest - 1);
        visits += 1;
    }
    wheel[here] = wheel[here] ^ due;
    let due = Due { ids: due };
    Turned { due, visits }
}

// Whether two wheels in words are the same.
pub fn same_words(one: &WheelWords, other: &WheelWords) -> bool
    ensures { (result ≡ true) ↔ (wheel_in one.now ≡ wheel_in other.now) }
{
    one == other
}

// The words of a wheel.
pub fn words_of(wheel: Wheel) -> WheelWords
    ensures { wheel_in result ≡ wheel }
{
    wheel.words
}

// The wheel that stands in words.
pub fn wheel_of(words: &WheelWords) -> Wheel
    ensures { result ≡ wheel_in words.now }
{
    let words = *words;
    Wheel { words }
}

// ---- a wheel by value

impl Wheel {
    // A wheel with every timer stopped, at this tick count.
    pub fn empty(count: u32) -> Wheel
        ensures { result ≡ wheel_of (empty count) }
    {
        let words = empty_words(count);
        Wheel { words }
    }

    // The timer set for n ticks. Nothing changes for an id out of range, a running timer, or no ticks.
    pub fn start(self, id: u8, n: Ticks) -> Wheel
        ensures always { result ≡ started_in self id n.0 }
        ensures hung { (h : Hung) → Good h → self ≡ wheel_of h → result ≡ wheel_of (started h id n.0) }
    {
        let mut words = self.words;
        start(&mut words, id, n);
        Wheel { words }
    }

    // The timer stopped. Nothing changes for an id out of range or a stopped timer.
    pub fn stop(self, id: u8) -> Wheel
        ensures always { result ≡ stopped_in self id }
        ensures hung { (h : Hung) → Good h → self ≡ wheel_of h → result ≡ wheel_of (stopped h id) }
    {
        let mut words = self.words;
        stop(&mut words, id);
        Wheel { words }
    }

    // The ticks left to a timer: 0 for a stopped one, and for an id out of range.
    pub fn left(self, id: u8) -> Ticks
        ensures always { result.0 ≡ left_in self id }
        ensures hung { (h : Hung) → Good h → self ≡ wheel_of h → result.0 ≡ left h id }
    {
        let words = self.words;
        left(&words, id)
    }

    // Moves to the next spoke, and visits the timers on it: one with turns left loses a turn, one with none comes due and is stopped.
    pub fn tick(self) -> Ticked
        ensures always { result ≡ ticked_in self }
        ensures hung { (h : Hung) → Good h → self ≡ wheel_of h → result ≡ ticked_of h }
        ensures order { (h : Hung) → Good h → self ≡ wheel_of h → ids_of result.due ≡ due h }
    {
        let mut words = self.words;
        let turned = tick(&mut words);
        let wheel = Wheel { words };
        let due = turned.due;
        let visits = turned.visits;
        Ticked { wheel, due, visits }
    }
}

impl Due {
    // The lowest id, or 32 for none.
    pub fn first(self) -> u8
        ensures { result ≡ first (ids_of self) }
    {
        u32::trailing_zeros(self.ids) as u8
    }

    // The others, without the lowest.
    pub fn rest(self) -> Due
        ensures always { result ≡ without_first self }
        ensures ids { ids_of result ≡ rest (ids_of self) }
    {
        let w = self.ids;
        if w == 0 {
            return self;
        }
        Due { ids: w & (w - 1) }
    }
}

// The thirteen calls, a row of 8 bytes taken apart into its call, and the answers with document 01's numbers.
#![tactic(auto)]

ghost use Rattle.std.specs.Prelude.{◌≡◌, eqb};
ghost use Rattle.calls.specs.Answers.{number_of};
ghost use Rattle.calls.specs.Rows.{fits, taken, kind_of, v_of, decoded};

use units::Micros;

// The bytes of a row.
pub const ROW: usize = 8;

// A row, not yet taken apart.
pub type Row = [u8; ROW];

// One-shot or periodic.
#[derive(Clone, Copy)]
pub enum Kind {
    OneShot,
    Periodic,
}

// The thirteen calls in document 01's order, with the fields that each names.
#[derive(Clone, Copy)]
pub enum Call {
    Start,
    CreateThread(u8),
    CreateMutex(u8),
    CreateCondition,
    CreateTimer,
    Acquire(u8),
    Release(u8),
    Wait(u8, u8),
    Signal(u8),
    Broadcast(u8),
    StartTimer(u8, u8, Kind, Micros),
    StopTimer(u8),
    Tick,
}

// Why an answer is as it is, in the order of document 01's numbers from 0. That nothing refuses a call is one of them and no Result is made of them:
// every answer carries the number.
#[derive(Clone, Copy)]
pub enum Verdict {
    Done,
    NotSound,
    Stopped,
    AlreadyStarted,
    NoSuchId,
    IdleCaller,
    OutOfRange,
    TableFull,
    AboveCeiling,
    NotOwner,
    CountFull,
    HoldingMore,
    TiedElsewhere,
    TimerRunning,
    TimerStopped,
    WrongRecord,
    BufferShort,
    WrongRow,
}

// The three numbers of an answer: the answer, given, and the thread running afterwards.
#[derive(Clone, Copy)]
pub struct Answer {
    pub number: u8,
    pub given: u16,
    pub running: u8,
}

// Which of a, b, kind and v a call names.
#[derive(Clone, Copy)]
pub struct Named {
    pub a: bool,
    pub b: bool,
    pub kind: bool,
    pub v: bool,
}

// Document 01's number of a verdict.
pub fn number(verdict: Verdict) -> u8
    ensures { result ≡ number_of verdict }
{
    match verdict {
        Verdict::Done => 0,
        Verdict::NotSound => 1,
        Verdict::Stopped => 2,
        Verdict::AlreadyStarted => 3,
        Verdict::NoSuchId => 4,
        Verdict::IdleCaller => 5,
        Verdict::OutOfRange => 6,
        Verdict::TableFull => 7,
        Verdict::AboveCeiling => 8,
        Verdict::NotOwner => 9,
        Verdict::CountFull => 10,
        Verdict::HoldingMore => 11,
        Verdict::TiedElsewhere => 12,
        Verdict::TimerRunning => 13,
        Verdict::TimerStopped => 14,
        Verdict::WrongRecord => 15,
        Verdict::BufferShort => 16,
        Verdict::WrongRow => 17,
    }
}

// A call that names no field.
const NAMES_NONE: Named = Named {
    a: false,
    b: false,
    kind: false,
    v: false,
};

// A call that names a.
const NAMES_A: Named = Named {
    a: true,
    ..NAMES_NONE
};

// A call that names a and b.
const NAMES_AB: Named = Named { b: true, ..NAMES_A };

// A call that names a, b, kind and v.
const NAMES_ALL: Named = Named {
    a: true,
    b: true,
    kind: true,
    v: true,
};

impl Verdict {
    // Whether nothing refuses the call: document 01's number is 0.
    pub fn is_done(self) -> bool
        ensures { result ≡ eqb (number_of self) 0 }
    {
        matches!(self, Verdict::Done)
    }
}

// The number v of a row, low byte first.
fn number_of_row(row: Row) -> u32
    ensures { result ≡ v_of row }
{
    u32::from_le_bytes([row[4], row[5], row[6], row[7]])
}

// Whether the fields that are not named are 0, and kind is 0 or 1.
#[tactic(auto, unfolding(crate::specs::Rows::fits))]
fn fits(named: Named, row: Row) -> bool
    ensures { result ≡ fits named row }
{
    (named.a || row[1] == 0)
        && (named.b || row[2] == 0)
        && (named.kind || row[3] == 0)
        && row[3] <= 1
        && (named.v || number_of_row(row) == 0)
}

// The call, if the fields that it does not name are 0.
#[tactic(auto, unfolding(crate::specs::Rows::taken))]
fn taken(named: Named, call: Call, row: Row) -> Option<Call>
    ensures { result ≡ taken named call row }
{
    if fits(named, row) { Some(call) } else { None }
}

// Kind 0 one-shot or 1 periodic.
#[tactic(auto, unfolding(crate::specs::Rows::kind_of))]
fn kind_of(kind: u8) -> Kind
    ensures { result ≡ kind_of kind }
{
    if kind == 0 {
        Kind::OneShot
    } else {
        Kind::Periodic
    }
}

// A row taken apart: its call, or none where it is of wrong form.
#[tactic(auto, unfolding(crate::specs::Rows::decoded, crate::specs::Rows::by_code))]
pub fn decode(row: Row) -> Option<Call>
    ensures { result ≡ decoded row }
{
    let [code, a, b, kind, ..] = row;
    match code {
        1 => taken(NAMES_NONE, Call::Start, row),
        2 => taken(NAMES_A, Call::CreateThread(a), row),
        3 => taken(NAMES_A, Call::CreateMutex(a), row),
        4 => taken(NAMES_NONE, Call::CreateCondition, row),
        5 => taken(NAMES_NONE, Call::CreateTimer, row),
        6 => taken(NAMES_A, Call::Acquire(a), row),
        7 => taken(NAMES_A, Call::Release(a), row),
        8 => taken(NAMES_AB, Call::Wait(a, b), row),
        9 => taken(NAMES_A, Call::Signal(a), row),
        10 => taken(NAMES_A, Call::Broadcast(a), row),
        11 => {
            let v = Micros(number_of_row(row));
            taken(NAMES_ALL, Call::StartTimer(a, b, kind_of(kind), v), row)
        }
        12 => taken(NAMES_A, Call::StopTimer(a), row),
        13 => taken(NAMES_NONE, Call::Tick, row),
        _ => None,
    }
}

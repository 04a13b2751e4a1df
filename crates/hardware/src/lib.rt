// The host's registers and a port of the card. The host makes each access that a call names and hands back the answer.
#![tactic(auto, using(crate::proofs::Laws::two_values, crate::proofs::Laws::one_value, crate::proofs::Typed::answer_typed), unfolding(crate::specs::Asked::is, crate::specs::Marks::count_of, crate::specs::Marks::more, crate::specs::Prog::pick, crate::specs::Marks::meter_on, crate::specs::Asked::open_family, crate::specs::Asked::question, crate::specs::Asked::family_numbered, crate::specs::Asked::opened, crate::specs::Asked::open_lan, crate::specs::Asked::open_port, crate::specs::Asked::and_then, crate::specs::Asked::valid_port, crate::specs::Marks::valid_held, crate::specs::Asked::fits, crate::specs::Asked::Admits, crate::specs::Asked::admitting, crate::specs::Registers::none_of, crate::specs::Registers::checked, crate::specs::Registers::reply, crate::specs::Failures::failure_of, crate::specs::Registers::raw, crate::specs::Registers::written, crate::specs::Registers::flushed))]

ghost use Rattle.std.specs.Prelude.{◌≡◌, ◌*◌, ◌-◌, max, [], ◌∷◌, get_or};
ghost use Rattle.hardware.specs.Marks.{count_of, hears, meter_on, valid_held};
ghost use Rattle.hardware.specs.Numbers.{refusal_number, error_number, error_values};
ghost use Rattle.hardware.specs.Asked.{family_number, is, open_family, opened, open_port, open_lan, valid_port, fits, Admits};
ghost use Rattle.hardware.specs.Registers.{none_of, checked, raw, written, flushed, reply};

pub mod change;
pub mod poll;

use std::fmt;

pub const STATUS: u32 = 0x0_0008;

pub const ESDP: u32 = 0x0_0020;

#[derive(Clone, Copy, PartialEq, Eq)]
pub enum Family {
    F82599,
    X540,
    X550,
    X552,
    X553,
}

impl Family {
    // `==`, as the contracts say it.
    pub fn is(self, other: Family) -> bool
        ensures { result ≡ is self other }
    {
        self == other
    }
}

// The name, padded as the format says.
impl fmt::Display for Family {
    fn fmt<W: fmt::Write>(&self, f: &mut fmt::Formatter<W>) -> fmt::Result {
        f.pad(match self {
            Family::F82599 => "82599",
            Family::X540 => "X540",
            Family::X550 => "X550",
            Family::X552 => "X552",
            Family::X553 => "X553",
        })
    }
}

// A function of the card: its family, PCI device ID and port number.
#[derive(Clone, Copy)]
pub struct Port {
    pub family: Family,
    pub device: u16,
    pub lan: u8,
}

// Microseconds, the unit of every wait that is asked for.
#[derive(Clone, Copy)]
pub struct Micros(pub u32);

// Milliseconds, the unit of the Rust's `delay_ms`.
#[derive(Clone, Copy)]
pub struct Millis(pub u16);

#[derive(Clone, Copy)]
pub enum Access {
    Read(u32),
    Write(u32, u32),
    Wait(Micros),
}

// What the host saw. No `Result`: a failed access is an answer like the others, and each call says what it makes of it.
#[derive(Clone, Copy)]
pub enum Answer {
    Value(u32),
    Done,
    Failed,
}

// The Rust's `Error`, the part in scope.
#[derive(Clone, Copy)]
pub enum Error {
    Io,
    Removed,
    Semaphore(u32),
    I2c(u8),
    HostInterface(u32),
    Firmware(u8, u8),
}

// The questions that are put to arguments and states, each named by what it asks about.
#[derive(Clone, Copy)]
pub enum Refusal {
    Family,
    Lan,
    Device,
    Attempts,
    ScriptLength,
    Command,
    Script,
    Block,
    Buffer,
    State,
    Finished,
    Kind,
}

// What a machine says with the access that it awaits. attempt: an attempt begins with it. left: a byte was acknowledged just
// before it, with so many of the ten samples left; 10 where none was.
#[derive(Clone, Copy)]
pub struct Marks {
    pub attempt: bool,
    pub left: u8,
}

pub const UNMARKED: Marks = Marks {
    attempt: false,
    left: 10,
};

pub const ATTEMPT_BEGINS: Marks = Marks {
    attempt: true,
    left: 10,
};

// What a result tells of the way to it: the transfers made, and the slowest acknowledgement, by the sample, 1 to 10, in which SDA
// first read low; 0 where no byte was acknowledged.
#[derive(Clone, Copy)]
pub struct Meter {
    pub transfers: u32,
    pub slowest: u8,
}

pub const BLANK: Meter = Meter {
    transfers: 0,
    slowest: 0,
};

// One attempt has begun.
pub const BEGUN: Meter = Meter {
    transfers: 1,
    slowest: 0,
};

// The Rust's `R<T>`.
pub type R<T> = Result<T, Error>;

// What follows an answer. Going: with the state that awaits the next one. End: with the result.
#[derive(Clone, Copy)]
pub enum Next<S, T> {
    Going(S),
    End(T),
}

// What a call that was not refused says. Ask: for an access, with the state that awaits its answer. End: with the result.
#[derive(Clone, Copy)]
pub enum Told<C, T> {
    Ask(Access, C),
    End(T),
}

// The state of a change to a register (`change`). Writing: with the value that is written.
#[derive(Clone, Copy)]
pub enum Update {
    Reading,
    Writing(u32),
    Flushing,
}

pub type UpdateNext = Next<Update, R<()>>;

// A byte was acknowledged, with so many samples left.
pub fn hears(left: u8) -> Marks
    ensures { result ≡ hears left }
{
    Marks {
        attempt: false,
        left,
    }
}

// A count that goes up by one where begins says so; at the top of its type it stays.
fn count(begins: bool, n: u32) -> u32
    ensures { result ≡ count_of begins n }
{
    if n < 4294967295 {
        if begins {
            return n + 1;
        }
    }
    n
}

// The greater of a sample and the one that was acknowledged with so many left.
fn slower(left: u8, n: u8) -> u8
    ensures { result ≡ max n (10 - left) }
{
    if left < 10 {
        if n < 10 - left {
            return 10 - left;
        }
    }
    n
}

// The meter after the marks.
pub fn meter_on(k: Marks, m: Meter) -> Meter
    ensures { result ≡ meter_on k m }
{
    Meter {
        transfers: count(k.attempt, m.transfers),
        slowest: slower(k.left, m.slowest),
    }
}

pub fn refusal_number(q: Refusal) -> u8
    ensures { result ≡ refusal_number q }
{
    match q {
        Refusal::Family => 1,
        Refusal::Lan => 2,
        Refusal::Device => 3,
        Refusal::Attempts => 4,
        Refusal::ScriptLength => 5,
        Refusal::Command => 6,
        Refusal::Script => 7,
        Refusal::Block => 8,
        Refusal::Buffer => 9,
        Refusal::State => 10,
        Refusal::Finished => 11,
        Refusal::Kind => 12,
    }
}

pub fn error_number(e: Error) -> u8
    ensures { result ≡ error_number e }
{
    match e {
        Error::Io => 20,
        Error::Removed => 21,
        Error::Semaphore(_) => 22,
        Error::I2c(_) => 23,
        Error::HostInterface(_) => 24,
        Error::Firmware(_, _) => 25,
    }
}

// The value at place `which` of those that go with the number, 0 past their end.
pub fn error_value(e: Error, which: u8) -> u32
    ensures { result ≡ get_or (error_values e) which 0 }
{
    match e {
        Error::Io => 0,
        Error::Removed => 0,
        Error::Semaphore(held) => first(which, held),
        Error::I2c(device) => first(which, device as u32),
        Error::HostInterface(hicr) => first(which, hicr),
        Error::Firmware(command, status) => {
            if which == 1 {
                status as u32
            } else {
                first(which, command as u32)
            }
        }
    }
}

fn first(which: u8, v: u32) -> u32
    ensures { result ≡ get_or (v ∷ []) which 0 }
{
    if which == 0 { v } else { 0 }
}

pub fn family_number(f: Family) -> u8
    ensures { result ≡ family_number f }
{
    match f {
        Family::F82599 => 0,
        Family::X540 => 1,
        Family::X550 => 2,
        Family::X552 => 3,
        Family::X553 => 4,
    }
}

// Question 1.
pub fn open_family(family: u32) -> Result<Family, Refusal>
    ensures { opened result ≡ open_family family }
{
    match family {
        0 => Ok(Family::F82599),
        1 => Ok(Family::X540),
        2 => Ok(Family::X550),
        3 => Ok(Family::X552),
        4 => Ok(Family::X553),
        _ => Err(Refusal::Family),
    }
}

// Question 2.
fn open_lan(family: Family, device: u16, lan: u32) -> Result<Port, Refusal>
    ensures { opened result ≡ open_lan device lan family }
{
    if 2 <= lan {
        return Err(Refusal::Lan);
    }
    Ok(Port {
        family,
        device,
        lan: lan as u8,
    })
}

// Questions 1 and 2. The family, the PCI device and the port number are apart, as numbers: so they cross the C interface.
pub fn open_port(family: u32, device: u16, lan: u32) -> Result<Port, Refusal>
    ensures { opened result ≡ open_port family device lan }
{
    let family = open_family(family)?;
    open_lan(family, device, lan)
}

// A state's port is one that an opening gives.
pub fn valid_port(p: Port) -> bool
    ensures { result ≡ valid_port p }
{
    p.lan < 2
}

// What every call's state holds: a port that an opening gives, and a meter whose sample is one of ten, or none.
pub fn valid_held(port: Port, m: Meter) -> bool
    ensures { result ≡ valid_held port m }
{
    if valid_port(port) {
        return m.slowest <= 10;
    }
    false
}

// Question 12: a read is answered by a value or a failure, a write by done or a failure, a wait by done.
pub fn awaited(x: Access, a: Answer) -> bool
    ensures { result ≡ fits x a }
{
    match x {
        Access::Read(_) => match a {
            Answer::Value(_) => true,
            Answer::Done => false,
            Answer::Failed => true,
        },
        Access::Write(_, _) => match a {
            Answer::Value(_) => false,
            Answer::Done => true,
            Answer::Failed => true,
        },
        Access::Wait(_) => match a {
            Answer::Value(_) => false,
            Answer::Done => true,
            Answer::Failed => false,
        },
    }
}

// Questions 10 and 12 of a step: whether its state is within its limits, and the answer of the kind that x awaits.
pub fn admit(valid: bool, x: Access, a: Answer) -> Result<(), Refusal>
    ensures { Admits valid x a result }
{
    if valid {
        if awaited(x, a) {
            return Ok(());
        }
        return Err(Refusal::Kind);
    }
    Err(Refusal::State)
}

// Whether v has none of the bits set.
pub fn none_of(v: u32, bits: u32) -> bool
    ensures { result ≡ none_of v bits }
{
    v & bits == 0
}

// What the Rust's `read` makes of the answer: FFFFFFFF is Removed.
pub fn read(a: Answer) -> R<u32>
    ensures { reply result ≡ checked a }
{
    match a {
        Answer::Value(v) => {
            if v == 0xFFFF_FFFF {
                return Err(Error::Removed);
            }
            Ok(v)
        }
        Answer::Done => Err(Error::Io),
        Answer::Failed => Err(Error::Io),
    }
}

// A register that is read raw: every value counts.
pub fn read_raw(a: Answer) -> R<u32>
    ensures { reply result ≡ raw a }
{
    match a {
        Answer::Value(v) => Ok(v),
        Answer::Done => Err(Error::Io),
        Answer::Failed => Err(Error::Io),
    }
}

pub fn write(a: Answer) -> R<()>
    ensures { reply result ≡ written a }
{
    match a {
        Answer::Value(_) => Err(Error::Io),
        Answer::Done => Ok(()),
        Answer::Failed => Err(Error::Io),
    }
}

// The raw read of STATUS that brings a write to the device.
pub fn flush(a: Answer) -> R<()>
    ensures { reply result ≡ flushed a }
{
    match a {
        Answer::Value(_) => Ok(()),
        Answer::Done => Err(Error::Io),
        Answer::Failed => Err(Error::Io),
    }
}

// The Rust's `delay_ms`: a wait of so many milliseconds, 1,000 microseconds each.
pub fn delay_ms(ms: Millis) -> Micros
    ensures { result.0 ≡ ms.0 * 1000 }
{
    Micros(ms.0 as u32 * 1000)
}

// The receiver by value: what START, STOP, the rise and the fall of SCL make of it.
#![tactic(auto, using(crate::proofs::Laws::rise_at_lem, crate::proofs::Laws::asks_at_lem, crate::proofs::Laws::fall_at_lem, crate::proofs::Laws::pick_false, crate::proofs::Laws::pick_true, crate::proofs::Laws::lowest), unfolding(crate::specs::Receiver::started, crate::specs::Receiver::stopped, crate::specs::Receiver::taken, hardware::specs::Prog::pick, crate::specs::Receiver::rise_at, crate::specs::Receiver::addressed, crate::specs::Receiver::fall_at, crate::specs::Receiver::asks_at, crate::specs::Receiver::edged, crate::specs::Receiver::asks_on, crate::specs::Edges::edge_of, bus::specs::Bus::bit_of, crate::specs::Receiver::pulls, crate::specs::Receiver::pulls_at))]

ghost use Rattle.std.specs.Prelude.{◌≡◌, ◌-◌};
ghost use Rattle.hardware.specs.Prog.{pick};
ghost use Rattle.bus.specs.Bus.{bit_of};
ghost use Rattle.bench.specs.Receiver.{at, fresh, started, stopped, taken, takes, notes, rise, chose, addressed, byte_taken, fall, asks, edged, asks_on, pulls};
ghost use Rattle.bench.specs.Edges.{edge_of};

#[derive(Clone, Copy, PartialEq, Eq)]
pub enum Chosen {
    A0,
    A2,
}

// Address and Receive with so many bits taken, 8 and above being all of them; Send with the place of the bit that is
// on SDA, the highest bit at 0, 7 and above being the lowest.
#[derive(Clone, Copy, PartialEq, Eq)]
pub enum Stage {
    Idle,
    Address(u8),
    Receive(u8),
    AckRead,
    AckWrite,
    Send(u8),
    Listen,
}

// bits: those taken, the newest lowest. page: the one chosen. first: the next byte is the offset. noted: SDA was high.
#[derive(Clone, Copy)]
pub struct Receiver {
    pub stage: Stage,
    pub bits: u8,
    pub page: Chosen,
    pub first: bool,
    pub noted: bool,
}

// What the fall of SCL asks of the page chosen: an offset to be set, a byte to be stored at the offset, which moves on,
// or the offset to move on.
#[derive(Clone, Copy, PartialEq, Eq)]
pub enum Act {
    Nothing,
    Offset(u8),
    Store(u8),
    Next,
}

// A change of the lines: START, STOP, SCL rises with SDA high or not, SCL falls.
#[derive(Clone, Copy, PartialEq, Eq)]
pub enum Edge {
    Start,
    Stop,
    Rise(bool),
    Fall,
}

// The receiver after an edge, and what it asked.
#[derive(Clone, Copy)]
pub struct Moved {
    pub receiver: Receiver,
    pub act: Act,
}

fn at(r: Receiver, stage: Stage) -> Receiver
    ensures { result ≡ at stage r }
{
    Receiver { stage, ..r }
}

fn fresh(r: Receiver, stage: Stage) -> Receiver
    ensures { result ≡ fresh stage r }
{
    Receiver {
        stage,
        bits: 0,
        ..r
    }
}

pub fn start(r: Receiver) -> Receiver
    ensures { result ≡ started r }
{
    fresh(r, Stage::Address(0))
}

pub fn stop(r: Receiver) -> Receiver
    ensures { result ≡ stopped r }
{
    at(r, Stage::Idle)
}

// One more bit, of eight.
fn taken(bits: u8, sda: bool) -> u8
    ensures { result ≡ taken bits sda }
{
    let left = bits % 128 * 2;
    if sda {
        return left + 1;
    }
    left
}

fn takes(r: Receiver, stage: Stage, sda: bool) -> Receiver
    ensures { result ≡ takes stage sda r }
{
    Receiver {
        stage,
        bits: taken(r.bits, sda),
        ..r
    }
}

fn notes(r: Receiver, sda: bool) -> Receiver
    ensures { result ≡ notes sda r }
{
    Receiver { noted: sda, ..r }
}

// SCL rises.
pub fn rise(r: Receiver, sda: bool) -> Receiver
    ensures { result ≡ rise sda r }
{
    match r.stage {
        Stage::Idle => r,
        Stage::Address(n) => {
            if n < 8 {
                return takes(r, Stage::Address(n + 1), sda);
            }
            r
        }
        Stage::Receive(m) => {
            if m < 8 {
                return takes(r, Stage::Receive(m + 1), sda);
            }
            r
        }
        Stage::AckRead => r,
        Stage::AckWrite => r,
        Stage::Send(_) => r,
        Stage::Listen => notes(r, sda),
    }
}

fn chose(r: Receiver, stage: Stage, page: Chosen) -> Receiver
    ensures { result ≡ chose stage page r }
{
    Receiver {
        stage,
        page,
        first: true,
        ..r
    }
}

// The address is taken.
fn addressed(r: Receiver) -> Receiver
    ensures { result ≡ addressed r }
{
    match r.bits {
        0xa0 => chose(r, Stage::AckWrite, Chosen::A0),
        0xa2 => chose(r, Stage::AckWrite, Chosen::A2),
        0xa1 => chose(r, Stage::AckRead, Chosen::A0),
        0xa3 => chose(r, Stage::AckRead, Chosen::A2),
        _ => at(r, Stage::Idle),
    }
}

// Another byte is taken.
fn byte_taken(r: Receiver) -> Receiver
    ensures { result ≡ byte_taken r }
{
    Receiver {
        stage: Stage::AckWrite,
        first: false,
        ..r
    }
}

fn byte_asks(r: Receiver) -> Act
    ensures { result ≡ pick r.first (Act.Offset r.bits) (Act.Store r.bits) }
{
    if r.first {
        return Act::Offset(r.bits);
    }
    Act::Store(r.bits)
}

// Nothing is asked.
fn quiet(r: Receiver) -> Moved
    ensures { (result.receiver ≡ r) × (result.act ≡ Act.Nothing) }
{
    Moved {
        receiver: r,
        act: Act::Nothing,
    }
}

// SCL falls.
pub fn fall(r: Receiver) -> Moved
    ensures { (result.receiver ≡ fall r) × (result.act ≡ asks r) }
{
    match r.stage {
        Stage::Idle => quiet(r),
        Stage::Address(n) => {
            if n < 8 {
                return quiet(r);
            }
            quiet(addressed(r))
        }
        Stage::Receive(n) => {
            if n < 8 {
                return quiet(r);
            }
            let receiver = byte_taken(r);
            let act = byte_asks(r);
            Moved { receiver, act }
        }
        Stage::AckRead => quiet(at(r, Stage::Send(0))),
        Stage::AckWrite => quiet(fresh(r, Stage::Receive(0))),
        Stage::Send(n) => {
            if n < 7 {
                return quiet(at(r, Stage::Send(n + 1)));
            }
            let receiver = at(r, Stage::Listen);
            let act = Act::Next;
            Moved { receiver, act }
        }
        Stage::Listen => {
            if r.noted {
                return quiet(at(r, Stage::Idle));
            }
            quiet(at(r, Stage::Send(0)))
        }
    }
}

pub fn edged(r: Receiver, e: Edge) -> Moved
    ensures { (result.receiver ≡ edged (edge_of e) r) × (result.act ≡ asks_on (edge_of e) r) }
{
    match e {
        Edge::Start => quiet(start(r)),
        Edge::Stop => quiet(stop(r)),
        Edge::Rise(sda) => quiet(rise(r, sda)),
        Edge::Fall => fall(r),
    }
}

// The bit of a byte at a place, the highest at 0, 7 and above being the lowest.
fn bit(byte: u8, place: u8) -> bool
    ensures { result ≡ bit_of byte (7 - place) }
{
    if place < 7 {
        return (byte as u64 >> (7 - place)) % 2 == 1;
    }
    byte % 2 == 1
}

// Whether SDA is pulled low, by the byte at the offset of the page chosen.
pub fn pulls(r: Receiver, byte: u8) -> bool
    ensures { result ≡ pulls r byte }
{
    match r.stage {
        Stage::Idle => false,
        Stage::Address(_) => false,
        Stage::Receive(_) => false,
        Stage::AckRead => true,
        Stage::AckWrite => true,
        Stage::Send(n) => !bit(byte, n),
        Stage::Listen => false,
    }
}

// A whole call: on the 82599 with PCI device 1558 `read_byte` and `write_byte` ask for the bus first and give it back
// in the end.
#![tactic(auto, using(hardware::proofs::Prog::going, hardware::proofs::Prog::going_on, crate::proofs::Laws::allows_wanted, crate::proofs::Laws::upto, hardware::proofs::Prog::over, bus::proofs::Laws::picked, crate::proofs::Laws::no_handshake, crate::proofs::Laws::handshake_opens, bus::proofs::Laws::picked_first, bus::proofs::Laws::picked_second, crate::proofs::Laws::less), unfolding(crate::specs::Handshake::has_handshake, hardware::specs::Marks::marked, hardware::specs::Marks::acknowledged, crate::specs::Handshake::handshake_next, crate::specs::Handshake::access_handshake, crate::specs::Handshake::rest_handshake, crate::specs::Handshake::valid_handshake_next, crate::specs::Handshake::valid_handshake, crate::specs::Handshake::due_handshake_next, crate::specs::Handshake::due_handshake, hardware::specs::Marks::more, hardware::specs::Prog::pick, hardware::specs::Change::update_next, hardware::specs::Prog::followed, hardware::specs::Prog::or_err, hardware::specs::Registers::reply, hardware::specs::Prog::erase, crate::specs::Handshake::closing, crate::specs::I2c::given_bus, hardware::specs::Change::change, hardware::specs::Change::access_update, hardware::specs::Change::rest_update, crate::specs::Retry::retry_next, crate::specs::Retry::valid_retry_next, crate::specs::Retry::due_retry_next, crate::specs::Handshake::entered, crate::specs::Handshake::looked_at, crate::specs::I2c::granting, crate::specs::Handshake::awaiting_grant, crate::specs::Handshake::on_granted, crate::specs::Retry::wanted, crate::specs::Handshake::allows, crate::specs::Handshake::valid_request))]

ghost use Rattle.std.specs.Prelude.{ℕ, ◌<◌, ◌≤◌, ◌≡◌, true, false, ltb};
ghost use Rattle.hardware.specs.Promise.{Counts};
ghost use Rattle.hardware.specs.Prog.{erase, followed, or_err, ret, pick};
ghost use Rattle.hardware.specs.Registers.{reply};
ghost use Rattle.hardware.specs.Change.{update_next};
ghost use Rattle.i2c.specs.I2c.{ask_bus, give_bus, retried, handshaken};
ghost use Rattle.i2c.specs.Retry.{wanted, retry_next, due_retry_next, valid_retry_next};
ghost use Rattle.i2c.specs.Handshake.{has_handshake, closing, entered, awaiting_grant, looked_at, access_handshake, rest_handshake, handshake_next, due_handshake, due_handshake_next, allows, valid_handshake, valid_handshake_next, valid_request};

use crate::How;
use crate::once::Request;
use crate::retry::{Retry, RetryNext};
use bus::Taken;
use hardware::change::{Bits, Change};
use hardware::{
    Access, Answer, ESDP, Error, Marks, Meter, Millis, Next, Port, R, UNMARKED, Update, UpdateNext,
};

// Asking, Granting, Waiting: with the attempts to come. Granting, Waiting: then the looks left after this one. Giving: with
// how the attempts ended.
#[derive(Clone, Copy)]
pub enum Handshake {
    Asking(u8, Update),
    Granting(u8, u8),
    Waiting(u8, u8),
    Inside(Retry),
    Giving(R<Taken>, Update),
}

pub type HandshakeNext = Next<(Marks, Handshake), R<Taken>>;

fn ask_bus() -> Change
    ensures { result ≡ ask_bus }
{
    Change {
        register: ESDP,
        bits: Bits::Set(1),
        flushed: true,
    }
}

fn give_bus() -> Change
    ensures { result ≡ give_bus }
{
    Change {
        register: ESDP,
        bits: Bits::Clear(1),
        flushed: true,
    }
}

pub fn has_handshake(port: Port, r: Request) -> bool
    ensures { result ≡ has_handshake port r }
{
    match r {
        Request::ReadByte(_, _) => crate::qsfp(port),
        Request::WriteByte(_, _, _) => crate::qsfp(port),
        Request::ReadCombined(_, _) => false,
        Request::WriteCombined(_, _, _) => false,
    }
}

fn given(g: R<Taken>, n: UpdateNext) -> HandshakeNext
    ensures { Counts ((port : Port) (r : Request) (how : How) → handshake_next port r how result ≡ followed (update_next give_bus n) (or_err (λ _. ret (reply g)))) ((most : ℕ) (port : Port) (r : Request) → valid_handshake_next most port r result ≡ true) ((r : Request) → due_handshake_next r result ≡ 0) }
{
    match n {
        Next::Going(u) => Next::Going((UNMARKED, Handshake::Giving(g, u))),
        Next::End(o) => match o {
            Ok(()) => Next::End(g),
            Err(e) => Next::End(Err(e)),
        },
    }
}

fn close(port: Port, r: Request, g: R<Taken>) -> HandshakeNext
    ensures { Counts ((how : How) → handshake_next port r how result ≡ erase (closing port r (reply g))) ((most : ℕ) → valid_handshake_next most port r result ≡ true) (due_handshake_next r result ≡ 0) }
{
    if has_handshake(port, r) {
        return Next::Going((UNMARKED, Handshake::Giving(g, Update::Reading)));
    }
    Next::End(g)
}

fn inside(port: Port, r: Request, n: RetryNext) -> HandshakeNext
    ensures { Counts ((how : How) → handshake_next port r how result ≡ followed (retry_next port r how n) (closing port r)) ((most : ℕ) → valid_retry_next most port r n ≡ true → valid_handshake_next most port r result ≡ true) (due_handshake_next r result ≤ due_retry_next n) }
{
    match n {
        Next::Going((k, t)) => Next::Going((k, Handshake::Inside(t))),
        Next::End(g) => close(port, r, g),
    }
}

fn enter(port: Port, r: Request, how: How, tries: u8) -> HandshakeNext
    ensures { Counts (handshake_next port r how result ≡ erase (entered port r how tries)) ((most : ℕ) → allows most r tries ≡ true → valid_handshake_next most port r result ≡ true) (due_handshake_next r result ≤ wanted r tries) }
{
    inside(port, r, crate::retry::open(port, r, how, tries))
}

// The looks for the grant that are left.
#[tactic(auto, using(bus::proofs::Laws::picked, crate::proofs::Laws::granted_more), unfolding(crate::specs::Handshake::awaiting_grant, crate::specs::I2c::granted, crate::specs::Handshake::on_granted, hardware::specs::Prog::erase, hardware::specs::Prog::or_err, hardware::specs::Prog::pick, hardware::specs::Registers::reply, hardware::specs::Failures::failure_of, crate::specs::Handshake::valid_handshake_next, crate::specs::Handshake::valid_handshake, crate::specs::Handshake::due_handshake_next, crate::specs::Handshake::due_handshake, hardware::specs::Marks::more))]
fn grant(port: Port, r: Request, tries: u8, left: u8) -> HandshakeNext
    ensures { Counts ((how : How) → handshake_next port r how result ≡ erase (awaiting_grant port r how tries left)) ((most : ℕ) → left ≤ 200 → allows most r tries ≡ true → valid_handshake_next most port r result ≡ true) (due_handshake_next r result ≤ wanted r tries) }
{
    if left == 0 {
        return close(port, r, Err(Error::I2c(crate::once::device(r))));
    }
    let after = left - 1;
    Next::Going((UNMARKED, Handshake::Granting(tries, after)))
}

fn looked(port: Port, r: Request, how: How, tries: u8, left: u8, w: R<u32>) -> HandshakeNext
    ensures { Counts (handshake_next port r how result ≡ erase (looked_at port r how tries left (reply w))) ((most : ℕ) → left < 200 → allows most r tries ≡ true → valid_handshake_next most port r result ≡ true) (due_handshake_next r result ≤ wanted r tries) }
{
    match w {
        Ok(v) => {
            if hardware::none_of(v, 2) {
                return Next::Going((UNMARKED, Handshake::Waiting(tries, left)));
            }
            enter(port, r, how, tries)
        }
        Err(e) => Next::End(Err(e)),
    }
}

fn asked(port: Port, r: Request, tries: u8, n: UpdateNext) -> HandshakeNext
    ensures { Counts ((how : How) → handshake_next port r how result ≡ followed (update_next ask_bus n) (or_err (λ _. awaiting_grant port r how tries 200))) ((most : ℕ) → allows most r tries ≡ true → valid_handshake_next most port r result ≡ true) (due_handshake_next r result ≤ wanted r tries) }
{
    match n {
        Next::Going(u) => Next::Going((UNMARKED, Handshake::Asking(tries, u))),
        Next::End(o) => match o {
            Ok(()) => grant(port, r, tries, 200),
            Err(e) => Next::End(Err(e)),
        },
    }
}

pub fn open(port: Port, r: Request, how: How, tries: u8) -> HandshakeNext
    ensures { Counts (handshake_next port r how result ≡ erase (handshaken port r (retried port r how tries))) ((most : ℕ) → allows most r tries ≡ true → valid_handshake_next most port r result ≡ true) (due_handshake_next r result ≤ wanted r tries) }
{
    if has_handshake(port, r) {
        return Next::Going((UNMARKED, Handshake::Asking(tries, Update::Reading)));
    }
    enter(port, r, how, tries)
}

pub fn access(port: Port, s: Handshake) -> Access
    ensures { result ≡ access_handshake port s }
{
    match s {
        Handshake::Asking(_, u) => hardware::change::access(ask_bus(), u),
        Handshake::Granting(_, _) => Access::Read(ESDP),
        Handshake::Waiting(_, _) => Access::Wait(hardware::delay_ms(Millis(5))),
        Handshake::Inside(t) => crate::retry::access(port, t),
        Handshake::Giving(_, u) => hardware::change::access(give_bus(), u),
    }
}

pub fn step(port: Port, r: Request, how: How, s: Handshake, a: Answer) -> HandshakeNext
    ensures { Counts (handshake_next port r how result ≡ erase (rest_handshake port r how s a)) ((most : ℕ) → valid_handshake most port r s ≡ true → valid_handshake_next most port r result ≡ true) (due_handshake_next r result ≤ due_handshake r s) }
{
    match s {
        Handshake::Asking(tries, u) => asked(
            port,
            r,
            tries,
            hardware::change::step(ask_bus(), u, a),
        ),
        Handshake::Granting(tries, left) => looked(port, r, how, tries, left, hardware::read(a)),
        Handshake::Waiting(tries, left) => grant(port, r, tries, left),
        Handshake::Inside(t) => inside(port, r, crate::retry::step(port, r, how, t, a)),
        Handshake::Giving(g, u) => given(g, hardware::change::step(give_bus(), u, a)),
    }
}

fn wanted(r: Request, tries: u8) -> u32
    ensures { result ≡ wanted r tries }
{
    if crate::once::is_write(r) {
        return 2;
    }
    tries as u32
}

// The most attempts that are to come.
pub fn due(r: Request, s: Handshake) -> u32
    ensures { result ≡ due_handshake r s }
{
    match s {
        Handshake::Asking(tries, _) => wanted(r, tries),
        Handshake::Granting(tries, _) => wanted(r, tries),
        Handshake::Waiting(tries, _) => wanted(r, tries),
        Handshake::Inside(t) => crate::retry::due(t),
        Handshake::Giving(_, _) => 0,
    }
}

fn allows(most: u32, r: Request, tries: u8) -> bool
    ensures { result ≡ allows most r tries }
{
    if tries as u32 <= most {
        return wanted(r, tries) <= most;
    }
    false
}

fn valid_looks(most: u32, r: Request, tries: u8, left: u8) -> bool
    ensures { result ≡ pick (allows most r tries) (ltb left 200) false }
{
    if allows(most, r, tries) {
        return left < 200;
    }
    false
}

// The counters of a request that has so many attempts.
pub fn valid(most: u32, port: Port, r: Request, s: Handshake) -> bool
    ensures { result ≡ valid_handshake most port r s }
{
    match s {
        Handshake::Asking(tries, _) => allows(most, r, tries),
        Handshake::Granting(tries, left) => valid_looks(most, r, tries, left),
        Handshake::Waiting(tries, left) => valid_looks(most, r, tries, left),
        Handshake::Inside(t) => crate::retry::valid(most, port, r, t),
        Handshake::Giving(_, _) => true,
    }
}

// A call's request within its limits: those of its attempts, and with the transfers made those to come are at most cap.
pub fn valid_request(port: Port, r: Request, tries: u32, cap: u32, m: Meter, s: Handshake) -> bool
    ensures { result ≡ valid_request port r tries cap m s }
{
    if valid(tries, port, r, s) {
        let made = m.transfers;
        return made as u64 + due(r, s) as u64 <= cap as u64;
    }
    false
}

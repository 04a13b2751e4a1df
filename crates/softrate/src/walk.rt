// One request after another.
#![tactic(auto, using(bus::proofs::Laws::picked, i2c::proofs::Request::begun_valid, i2c::proofs::Request::own_allows, i2c::proofs::Request::request_asks, i2c::proofs::Request::request_begun, crate::proofs::Laws::cap_most, crate::proofs::Laws::own, crate::proofs::Laws::cap_next, crate::proofs::Laws::next_placed, crate::proofs::Laws::cap_done, crate::proofs::Laws::read_room, crate::proofs::Laws::write_placed, crate::proofs::Laws::on_told, hardware::proofs::Prog::going_on, i2c::proofs::Laws::fits_valid, bus::proofs::Laws::picked_first, bus::proofs::Laws::picked_second, i2c::proofs::Laws::valid_fits, hardware::proofs::Prog::over), unfolding(crate::specs::Walk::rate_next, crate::specs::Walk::access_rate, crate::specs::Walk::rest_rate, crate::specs::Spot::placed, crate::specs::Walk::valid_rate_next, crate::specs::Walk::valid_rate, crate::specs::Spot::next_byte, hardware::specs::Registers::reply, hardware::specs::Prog::erase, crate::specs::Spot::valid_spot, hardware::specs::Prog::pick, crate::specs::Spot::told_at, i2c::specs::Handshake::valued, i2c::specs::I2c::value_of, sfp::specs::Rate::or_not, crate::specs::Spot::on_place, i2c::specs::Handshake::rest_request, i2c::specs::Handshake::handshake_next, i2c::specs::Handshake::valid_handshake_next, i2c::specs::Handshake::due_handshake_next, hardware::specs::Prog::followed))]

ghost use Rattle.std.specs.Prelude.{◌+◌, ◌≤◌, ◌≡◌, true, false};
ghost use Rattle.hardware.specs.Promise.{Keeps};
ghost use Rattle.hardware.specs.Failures.{failure_of};
ghost use Rattle.hardware.specs.Prog.{erase, followed, Err};
ghost use Rattle.i2c.specs.I2c.{locked, attempts};
ghost use Rattle.i2c.specs.Handshake.{handshake_next, due_handshake_next, valid_handshake_next};
ghost use Rattle.softrate.specs.Spot.{request_at, tries_at, before, cap_at, valid_spot, next_byte, on_place, told_at, placed};
ghost use Rattle.softrate.specs.Walk.{access_rate, rest_rate, rate_next, valid_rate, valid_rate_next};
ghost use Rattle.hardware.specs.Registers.{reply};

use crate::spot::{Place, Spot};
use bus::Taken;
use hardware::{Access, Answer, Error, Marks, Meter, Next, Port, R};
use i2c::How;
use i2c::handshake::{Handshake, HandshakeNext};
use transfer::attempt::Sequence;

#[derive(Clone, Copy)]
pub struct Rate {
    pub spot: Spot,
    pub request: Handshake,
}

pub type RateNext = Next<(Marks, Rate), R<bool>>;

// A locked request has an access at once, so that the second arm is never met.
pub fn begin(port: Port, q: Sequence, ten: bool, s: Spot) -> RateNext
    ensures { Keeps (rate_next q port ten result ≡ erase (placed q port ten s)) ((m : Meter) → valid_spot s ≡ true → m.transfers + tries_at port s.place ≤ cap_at port s → valid_rate_next port ten m result ≡ true) }
{
    let p = s.place;
    match i2c::handshake::open(
        port,
        crate::spot::request(ten, s),
        How {
            lock: true,
            sequence: q,
        },
        crate::spot::tries(port, p),
    ) {
        Next::Going((k, m)) => Next::Going((
            k,
            Rate {
                spot: s,
                request: m,
            },
        )),
        Next::End(_) => Next::End(Err(Error::Io)),
    }
}

// A byte is done, well or not: the second follows, or the end.
fn next_byte(port: Port, q: Sequence, ten: bool, second: bool, ok: bool) -> RateNext
    ensures { Keeps (rate_next q port ten result ≡ erase (next_byte q port ten second ok)) ((m : Meter) → m.transfers ≤ before port second + (attempts port + 2) → valid_rate_next port ten m result ≡ true) }
{
    if second {
        return Next::End(Ok(ok));
    }
    begin(
        port,
        q,
        ten,
        Spot {
            second: true,
            ok,
            place: Place::Reading,
        },
    )
}

// Nothing answered, and the next byte has its turn; any other failure ends the call.
fn failed(port: Port, q: Sequence, ten: bool, s: Spot, e: Error) -> RateNext
    ensures { Keeps (rate_next q port ten result ≡ erase (told_at q port ten s (Err (failure_of e)))) ((m : Meter) → m.transfers ≤ cap_at port s → valid_rate_next port ten m result ≡ true) }
{
    if bus::is_i2c(e) {
        return next_byte(port, q, ten, s.second, false);
    }
    Next::End(Err(e))
}

// A byte was read, or written.
fn on(port: Port, q: Sequence, ten: bool, s: Spot, v: u8) -> RateNext
    ensures { Keeps (rate_next q port ten result ≡ erase (on_place q port ten s.second s.ok s.place v)) ((m : Meter) → valid_spot s ≡ true → m.transfers ≤ cap_at port s → valid_rate_next port ten m result ≡ true) }
{
    let p = s.place;
    match p {
        Place::Reading => begin(
            port,
            q,
            ten,
            Spot {
                second: s.second,
                ok: s.ok,
                place: Place::Writing(v),
            },
        ),
        Place::Writing(_) => next_byte(port, q, ten, s.second, s.ok),
    }
}

// A request has ended.
fn concluded(port: Port, q: Sequence, ten: bool, s: Spot, g: R<Taken>) -> RateNext
    ensures { Keeps (rate_next q port ten result ≡ erase (told_at q port ten s (reply g))) ((m : Meter) → valid_spot s ≡ true → m.transfers ≤ cap_at port s → valid_rate_next port ten m result ≡ true) }
{
    match g {
        Ok(t) => on(port, q, ten, s, t.last),
        Err(e) => failed(port, q, ten, s, e),
    }
}

fn from_request(port: Port, q: Sequence, ten: bool, s: Spot, n: HandshakeNext) -> RateNext
    ensures { Keeps (rate_next q port ten result ≡ followed (handshake_next port (request_at ten s) (locked q) n) (told_at q port ten s)) ((m : Meter) → valid_spot s ≡ true → valid_handshake_next (tries_at port s.place) port (request_at ten s) n ≡ true → m.transfers + due_handshake_next (request_at ten s) n ≤ cap_at port s → valid_rate_next port ten m result ≡ true) }
{
    match n {
        Next::Going((k, m)) => Next::Going((
            k,
            Rate {
                spot: s,
                request: m,
            },
        )),
        Next::End(g) => concluded(port, q, ten, s, g),
    }
}

pub fn access(port: Port, s: Rate) -> Access
    ensures { result ≡ access_rate port s }
{
    let t = s.request;
    i2c::handshake::access(port, t)
}

pub fn valid(port: Port, ten: bool, m: Meter, s: Rate) -> bool
    ensures { result ≡ valid_rate port ten m s }
{
    let p = s.spot;
    let t = s.request;
    let place = p.place;
    if crate::spot::valid(p) {
        return i2c::handshake::valid_request(
            port,
            crate::spot::request(ten, p),
            crate::spot::tries(port, place) as u32,
            crate::spot::cap(port, p),
            m,
            t,
        );
    }
    false
}

pub fn step(port: Port, q: Sequence, ten: bool, s: Rate, a: Answer) -> RateNext
    ensures { Keeps (rate_next q port ten result ≡ erase (rest_rate q port ten s a)) ((m : Meter) → valid_rate port ten m s ≡ true → valid_rate_next port ten m result ≡ true) }
{
    let p = s.spot;
    let t = s.request;
    let how = How {
        lock: true,
        sequence: q,
    };
    from_request(
        port,
        q,
        ten,
        p,
        i2c::handshake::step(port, crate::spot::request(ten, p), how, t, a),
    )
}

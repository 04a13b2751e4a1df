// One request after another.
#![tactic(auto, using(bus::proofs::Laws::picked, i2c::proofs::Request::begun_valid, i2c::proofs::Request::own_allows, i2c::proofs::Request::request_asks, i2c::proofs::Request::request_begun, crate::proofs::Laws::cap_most, crate::proofs::Laws::own, hardware::proofs::Prog::going_on, i2c::proofs::Laws::fits_valid, bus::proofs::Laws::picked_first, bus::proofs::Laws::picked_second, i2c::proofs::Laws::valid_fits, hardware::proofs::Prog::over), unfolding(crate::specs::Walk::identify_next, crate::specs::Walk::access_identify, crate::specs::Walk::rest_identify, crate::specs::Place::placed, sfp::specs::Identify::byte, crate::specs::Place::request_at, crate::specs::Walk::valid_identify_next, crate::specs::Walk::valid_identify, crate::specs::Place::rest_then, crate::specs::Place::Later, hardware::specs::Registers::reply, hardware::specs::Prog::erase, i2c::specs::Handshake::rest_request, crate::specs::Place::told_at, i2c::specs::Handshake::handshake_next, i2c::specs::Handshake::valid_handshake_next, i2c::specs::Handshake::due_handshake_next, hardware::specs::Prog::followed, hardware::specs::Prog::pick))]

ghost use Rattle.std.specs.Prelude.{ℕ, ◌+◌, ◌≤◌, ◌≡◌, true};
ghost use Rattle.hardware.specs.Promise.{Keeps};
ghost use Rattle.hardware.specs.Prog.{erase, followed};
ghost use Rattle.i2c.specs.I2c.{locked};
ghost use Rattle.i2c.specs.Handshake.{handshake_next, due_handshake_next, valid_handshake_next};
ghost use Rattle.identify.specs.Place.{request_at, tries_at, cap_at, valid_place, placed, told_at, rest_then, Later};
ghost use Rattle.identify.specs.Walk.{access_identify, rest_identify, identify_next, valid_identify, valid_identify_next};

use crate::place::{Place, Then};
use hardware::{Access, Answer, Error, Marks, Meter, Next, Port, R};
use i2c::How;
use i2c::handshake::{Handshake, HandshakeNext};
use sfp::Identity;
use transfer::attempt::Sequence;

#[derive(Clone, Copy)]
pub struct Identify {
    pub place: Place,
    pub request: Handshake,
}

pub type IdentifyNext = Next<(Marks, Identify), R<Identity>>;

// A locked request has an access at once, so that the second arm is never met.
pub fn begin(port: Port, q: Sequence, p: Place) -> IdentifyNext
    ensures { Keeps (identify_next q port result ≡ erase (placed q port p)) ((m : Meter) → valid_place p ≡ true → m.transfers + tries_at port p ≤ cap_at port p → valid_identify_next port m result ≡ true) }
{
    match i2c::handshake::open(
        port,
        crate::place::request(p),
        How {
            lock: true,
            sequence: q,
        },
        crate::place::tries(port, p),
    ) {
        Next::Going((k, s)) => Next::Going((
            k,
            Identify {
                place: p,
                request: s,
            },
        )),
        Next::End(_) => Next::End(Err(Error::Io)),
    }
}

fn conclude(port: Port, q: Sequence, t: Then) -> IdentifyNext
    ensures { Keeps (identify_next q port result ≡ erase (rest_then q port t)) ((m : Meter) (n : ℕ) → m.transfers ≤ n → Later port n t → valid_identify_next port m result ≡ true) }
{
    match t {
        Next::Going(p) => begin(port, q, p),
        Next::End(r) => Next::End(r),
    }
}

fn from_request(port: Port, q: Sequence, p: Place, n: HandshakeNext) -> IdentifyNext
    ensures { Keeps (identify_next q port result ≡ followed (handshake_next port (request_at p) (locked q) n) (told_at q port p)) ((m : Meter) → valid_place p ≡ true → valid_handshake_next (tries_at port p) port (request_at p) n ≡ true → m.transfers + due_handshake_next (request_at p) n ≤ cap_at port p → valid_identify_next port m result ≡ true) }
{
    match n {
        Next::Going((k, s)) => Next::Going((
            k,
            Identify {
                place: p,
                request: s,
            },
        )),
        Next::End(g) => conclude(port, q, crate::place::after(p, g)),
    }
}

pub fn access(port: Port, s: Identify) -> Access
    ensures { result ≡ access_identify port s }
{
    let t = s.request;
    i2c::handshake::access(port, t)
}

pub fn valid(port: Port, m: Meter, s: Identify) -> bool
    ensures { result ≡ valid_identify port m s }
{
    let p = s.place;
    let t = s.request;
    if crate::place::valid(p) {
        return i2c::handshake::valid_request(
            port,
            crate::place::request(p),
            crate::place::tries(port, p) as u32,
            crate::place::cap(port, p),
            m,
            t,
        );
    }
    false
}

pub fn step(port: Port, q: Sequence, s: Identify, a: Answer) -> IdentifyNext
    ensures { Keeps (identify_next q port result ≡ erase (rest_identify q port s a)) ((m : Meter) → valid_identify port m s ≡ true → valid_identify_next port m result ≡ true) }
{
    let p = s.place;
    let t = s.request;
    let how = How {
        lock: true,
        sequence: q,
    };
    from_request(
        port,
        q,
        p,
        i2c::handshake::step(port, crate::place::request(p), how, t, a),
    )
}

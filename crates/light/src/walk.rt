// One byte after another.
#![tactic(auto, using(crate::proofs::Laws::cap_few, crate::proofs::Laws::cap_is, bus::proofs::Laws::picked, i2c::proofs::Request::begun_valid, i2c::proofs::Request::none_read, i2c::proofs::Request::own_allows, i2c::proofs::Request::request_begun, i2c::proofs::Request::request_over, crate::proofs::Laws::cap_most, crate::proofs::Laws::own, crate::proofs::Laws::again, crate::proofs::Laws::cap_next, crate::proofs::Laws::follows_some, hardware::proofs::Prog::going_on, i2c::proofs::Laws::fits_valid), unfolding(crate::specs::Light::device_at, hardware::specs::Prog::pick, crate::specs::Light::offset_at, crate::specs::Light::request_at, crate::specs::Light::stops, crate::specs::Walk::light_next, crate::specs::Walk::access_light, crate::specs::Walk::rest_light, crate::specs::Light::light_from, crate::specs::Walk::valid_light_next, crate::specs::Walk::valid_light, crate::specs::Sensed::measured_of, hardware::specs::Prog::erase, i2c::specs::Handshake::valued, i2c::specs::I2c::value_of, hardware::specs::Registers::reply, crate::specs::Light::byte_seen, hardware::specs::Prog::or_err, crate::specs::Light::light_on, i2c::specs::I2c::read_off, i2c::specs::Handshake::rest_request, i2c::specs::Handshake::handshake_next, i2c::specs::Handshake::valid_handshake_next, i2c::specs::Handshake::due_handshake_next, hardware::specs::Prog::followed))]

ghost use Rattle.std.specs.Prelude.{◌+◌, ◌≤◌, suc, ◌≡◌, true};
ghost use Rattle.hardware.specs.Promise.{Keeps};
ghost use Rattle.hardware.specs.Prog.{erase, followed};
ghost use Rattle.i2c.specs.I2c.{locked};
ghost use Rattle.i2c.specs.Handshake.{valued, handshake_next, due_handshake_next, valid_handshake_next};
ghost use Rattle.light.specs.Light.{device_at, offset_at, request_at, stops, light_on, byte_seen, light_from};
ghost use Rattle.light.specs.Walk.{cap_at, access_light, rest_light, light_next, valid_light, valid_light_next};
ghost use Rattle.hardware.specs.Registers.{reply};

use crate::sensed::{EXTERNAL, LightError, MONITORED, Measured, Sensed};
use bus::Taken;
use hardware::{Access, Answer, Error, Marks, Meter, Next, Port, R};
use i2c::How;
use i2c::handshake::{Handshake, HandshakeNext};
use i2c::once::Request;
use transfer::attempt::Sequence;

// left: the bytes that come after this one if all are read.
#[derive(Clone, Copy)]
pub struct Light {
    pub left: u8,
    pub sensed: Sensed,
    pub request: Handshake,
}

pub type LightNext = Next<(Marks, Light), Measured>;

const EEPROM: u8 = 0xa0;

const DIAG: u8 = 0xa2;

fn device(left: u8) -> u8
    ensures { result ≡ device_at left }
{
    if 29 < left {
        return EEPROM;
    }
    DIAG
}

// Byte 92 of A0; bytes 96 to 105 of A2, and last its coefficients, bytes 56 to 75.
fn offset(left: u8) -> u8
    ensures { result ≡ offset_at left }
{
    if 29 < left {
        return 92;
    }
    if 19 < left {
        return 96 + (29 - left);
    }
    56 + (19 - left)
}

pub(crate) fn request(left: u8) -> Request
    ensures { result ≡ request_at left }
{
    Request::ReadByte(device(left), offset(left))
}

// Whether no byte follows this one. kind: byte 92, which asks for those after it.
fn last(kind: u8, left: u8) -> bool
    ensures { result ≡ stops kind left }
{
    if left == 30 {
        return sfp::class::none_of(kind, MONITORED);
    }
    if left == 20 {
        return sfp::class::none_of(kind, EXTERNAL);
    }
    left == 0
}

// The most transfers up to the byte that is read now, its own included.
pub(crate) fn cap(tries: u8, left: u8) -> u32
    requires { left ≤ 30 }
    ensures { result ≡ cap_at tries left }
{
    (31 - left as u32) * tries as u32
}

// A byte's request. With no attempt it can be over at once, and then it has failed: no byte is read without an access.
pub fn begin(port: Port, q: Sequence, tries: u8, left: u8, s: Sensed) -> LightNext
    ensures { Keeps (light_next q port tries result ≡ erase (light_from q port tries (suc left) s)) ((m : Meter) → left ≤ 30 → m.transfers + tries ≤ cap_at tries left → valid_light_next port tries m result ≡ true) }
{
    let how = How {
        lock: true,
        sequence: q,
    };
    match i2c::handshake::open(port, request(left), how, tries) {
        Next::Going((k, t)) => Next::Going((
            k,
            Light {
                left,
                sensed: s,
                request: t,
            },
        )),
        Next::End(g) => match g {
            Ok(_) => Next::End(Err(LightError::Bus(Error::Io))),
            Err(e) => Next::End(Err(LightError::Bus(e))),
        },
    }
}

// A byte was taken, and so many may come after it: the next, or the end.
fn next(port: Port, q: Sequence, tries: u8, left: u8, s: Sensed) -> LightNext
    ensures { Keeps (light_next q port tries result ≡ erase (light_on (light_from q port tries left) left s)) ((m : Meter) → left ≤ 30 → m.transfers ≤ cap_at tries left → valid_light_next port tries m result ≡ true) }
{
    if last(s.kind, left) {
        return Next::End(crate::sensed::judge(s));
    }
    let after = left - 1;
    begin(port, q, tries, after, s)
}

// A byte's request has ended: the byte is taken, or the call has failed.
fn ended(port: Port, q: Sequence, tries: u8, left: u8, s: Sensed, g: R<Taken>) -> LightNext
    ensures { Keeps (light_next q port tries result ≡ erase (valued (request_at left) (byte_seen (light_from q port tries left) left s) (reply g))) ((m : Meter) → left ≤ 30 → m.transfers ≤ cap_at tries left → valid_light_next port tries m result ≡ true) }
{
    match g {
        Ok(t) => next(port, q, tries, left, crate::sensed::take(s, left, t.last)),
        Err(e) => Next::End(Err(LightError::Bus(e))),
    }
}

fn from_request(
    port: Port,
    q: Sequence,
    tries: u8,
    left: u8,
    s: Sensed,
    n: HandshakeNext,
) -> LightNext
    ensures { Keeps (light_next q port tries result ≡ followed (handshake_next port (request_at left) (locked q) n) (valued (request_at left) (byte_seen (light_from q port tries left) left s))) ((m : Meter) → left ≤ 30 → valid_handshake_next tries port (request_at left) n ≡ true → m.transfers + due_handshake_next (request_at left) n ≤ cap_at tries left → valid_light_next port tries m result ≡ true) }
{
    match n {
        Next::Going((k, t)) => Next::Going((
            k,
            Light {
                left,
                sensed: s,
                request: t,
            },
        )),
        Next::End(g) => ended(port, q, tries, left, s, g),
    }
}

pub fn access(port: Port, s: Light) -> Access
    ensures { result ≡ access_light port s }
{
    let t = s.request;
    i2c::handshake::access(port, t)
}

pub fn valid(port: Port, tries: u8, m: Meter, s: Light) -> bool
    ensures { result ≡ valid_light port tries m s }
{
    let left = s.left;
    let t = s.request;
    if left <= 30 {
        return i2c::handshake::valid_request(
            port,
            request(left),
            tries as u32,
            cap(tries, left),
            m,
            t,
        );
    }
    false
}

#[tactic(auto, using(bus::proofs::Laws::picked_first, bus::proofs::Laws::picked_second, hardware::proofs::Prog::over, i2c::proofs::Laws::valid_fits), unfolding(crate::specs::Walk::rest_light, i2c::specs::Handshake::rest_request, crate::specs::Walk::valid_light))]
pub fn step(port: Port, q: Sequence, tries: u8, s: Light, a: Answer) -> LightNext
    ensures { Keeps (light_next q port tries result ≡ erase (rest_light q port tries s a)) ((m : Meter) → valid_light port tries m s ≡ true → valid_light_next port tries m result ≡ true) }
{
    let left = s.left;
    let sensed = s.sensed;
    let t = s.request;
    let how = How {
        lock: true,
        sequence: q,
    };
    let n = i2c::handshake::step(port, request(left), how, t, a);
    from_request(port, q, tries, left, sensed, n)
}

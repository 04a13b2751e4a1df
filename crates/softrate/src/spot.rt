// Where a rate selection stands: two bytes of page A2, each read, changed and written back.
#![tactic(auto, using(i2c::proofs::Laws::attempts_few, crate::proofs::Laws::before_fits, crate::proofs::Laws::up_done), unfolding(crate::specs::Spot::offset_of, crate::specs::Spot::request_of, crate::specs::Spot::request_at, crate::specs::Spot::tries_at, crate::specs::Spot::up_to, crate::specs::Spot::before, hardware::specs::Prog::pick, crate::specs::Spot::cap_at, crate::specs::Spot::valid_spot))]

ghost use Rattle.std.specs.Prelude.{◌≡◌};
ghost use Rattle.softrate.specs.Spot.{offset_of, request_of, request_at, tries_at, up_to, before, cap_at, valid_spot};

use hardware::Port;
use i2c::once::Request;

// Which request is made; no `Option`, since neither is the want of one. Writing: with the byte that was read.
#[derive(Clone, Copy)]
pub enum Place {
    Reading,
    Writing(u8),
}

// second: the second of the two bytes. ok: no byte failed before this one.
#[derive(Clone, Copy)]
pub struct Spot {
    pub second: bool,
    pub ok: bool,
    pub place: Place,
}

const DIAG: u8 = 0xa2;

fn offset(second: bool) -> u8
    ensures { result ≡ offset_of second }
{
    if second {
        return 0x76;
    }
    0x6e
}

fn requested(ten: bool, second: bool, p: Place) -> Request
    ensures { result ≡ request_of ten second p }
{
    match p {
        Place::Reading => Request::ReadByte(DIAG, offset(second)),
        Place::Writing(v) => {
            Request::WriteByte(DIAG, offset(second), sfp::rate::selected(ten, v))
        }
    }
}

pub fn request(ten: bool, s: Spot) -> Request
    ensures { result ≡ request_at ten s }
{
    let p = s.place;
    requested(ten, s.second, p)
}

// A write has two attempts.
pub fn tries(port: Port, p: Place) -> u8
    ensures { result ≡ tries_at port p }
{
    match p {
        Place::Reading => i2c::attempts(port) as u8,
        Place::Writing(_) => 2,
    }
}

// The most transfers of a byte up to a request's end.
fn up_to(port: Port, p: Place) -> u32
    ensures { result ≡ up_to port p }
{
    match p {
        Place::Reading => i2c::attempts(port),
        Place::Writing(_) => i2c::attempts(port) + 2,
    }
}

// The most transfers before a byte.
fn before(port: Port, second: bool) -> u32
    ensures { result ≡ before port second }
{
    if second {
        return i2c::attempts(port) + 2;
    }
    0
}

// The most transfers up to this spot's end.
pub fn cap(port: Port, s: Spot) -> u32
    ensures { result ≡ cap_at port s }
{
    let p = s.place;
    before(port, s.second) + up_to(port, p)
}

// Before the first byte nothing has failed.
pub fn valid(s: Spot) -> bool
    ensures { result ≡ valid_spot s }
{
    if s.second {
        return true;
    }
    s.ok
}

// Where an identification stands, and what a byte leads to.
#![tactic(auto, using(i2c::proofs::Laws::attempts_few, crate::proofs::Laws::few_requests, crate::proofs::Laws::cap_again, crate::proofs::Laws::cap_first, crate::proofs::Laws::placed_again, crate::proofs::Laws::kinded_known, crate::proofs::Laws::kinded_open, crate::proofs::Laws::qsfp_known_lem, crate::proofs::Laws::qsfp_open, crate::proofs::Laws::technology_is), unfolding(crate::specs::Place::request_at, crate::specs::Place::tries_at, hardware::specs::Prog::pick, crate::specs::Place::cap_at, crate::specs::Place::most, crate::specs::Place::valid_place, crate::specs::Place::rest_then, hardware::specs::Registers::reply, crate::specs::Place::Later, crate::specs::Place::placed, crate::specs::Place::on_at, sfp::specs::Identify::identified, sfp::specs::Identify::known, sfp::specs::Identify::identifier_of, sfp::specs::Identify::classify, sfp::specs::Identify::bx10g_of, crate::specs::Place::kinded, sfp::specs::Bytes::codes_ask_rate, sfp::specs::Identify::reach_of, sfp::specs::Qsfp::qsfp_identified, sfp::specs::Qsfp::qsfp_known, sfp::specs::Qsfp::qsfp_connector, sfp::specs::Qsfp::qsfp_length, sfp::specs::Identify::or_absent, crate::specs::Place::told_at, i2c::specs::Handshake::valued, i2c::specs::I2c::value_of, i2c::specs::I2c::read_off))]

ghost use Rattle.std.specs.Prelude.{ℕ, ◌+◌, ◌≤◌, ◌≡◌, true};
ghost use Rattle.transfer.specs.declared.attempt.Sequence.{Sequence};
ghost use Rattle.sfp.specs.Identify.{or_absent, recorded, classify};
ghost use Rattle.hardware.specs.Promise.{Keeps};
ghost use Rattle.hardware.specs.Failures.{failure_of};
ghost use Rattle.hardware.specs.Prog.{ret, Ok, Err};
ghost use Rattle.sfp.specs.Qsfp.{qsfp_classify, qsfp_identified, qsfp_found};
ghost use Rattle.identify.specs.Place.{row_at, readings_at, request_at, tries_at, most, cap_at, valid_place, on_at, kinded, told_at, rest_then, Later};
ghost use Rattle.i2c.specs.I2c.{attempts};
ghost use Rattle.hardware.specs.Registers.{reply};

use bus::Taken;
use hardware::{Error, Next, Port, R};
use i2c::once::Request;
use sfp::{Codes, Identity, Kind, class};

// The byte that is requested, with those read before it. Identifier: with the readings left after this one. The codes of
// an SFP are bytes 6, 3 and 8; those of a QSFP, in this order, 83 and 86 (hexadecimal).
#[derive(Clone, Copy)]
pub enum Place {
    Identifier(u8),
    Comp1g,
    Comp10g(u8),
    Cable(u8, u8),
    Rate(Codes),
    Km(Codes),
    Hm(Codes, u8),
    Active(Codes),
    QsfpIdentifier,
    Qsfp10g,
    Qsfp1g(u8),
    QsfpConnector(u8, u8),
    QsfpLength(u8, u8),
    QsfpTechnology(u8, u8),
}

// What is to be done once a byte was read, or not: another request, or the end.
pub type Then = Next<Place, R<Identity>>;

const EEPROM: u8 = 0xa0;

// Of a place: the byte's offset; the most readings of byte 0, and how many of them are left; the requests after byte 0, this
// one among them.
#[derive(Clone, Copy)]
struct Row(u8, u8, u8, u8);

fn row_at(p: Place) -> Row
    ensures { (result.0 ≡ (row_at p).0) × (result.1 ≡ (row_at p).1) × (result.2 ≡ (row_at p).2) × (result.3 ≡ (row_at p).3) }
{
    match p {
        Place::Identifier(left) => Row(0, 5, left, 0),
        Place::Comp1g => Row(6, 5, 0, 1),
        Place::Comp10g(_) => Row(3, 5, 0, 2),
        Place::Cable(_, _) => Row(8, 5, 0, 3),
        Place::Rate(_) => Row(12, 5, 0, 4),
        Place::Km(_) => Row(14, 5, 0, 5),
        Place::Hm(_, _) => Row(15, 5, 0, 6),
        Place::Active(_) => Row(60, 5, 0, 7),
        Place::QsfpIdentifier => Row(0, 1, 0, 0),
        Place::Qsfp10g => Row(0x83, 1, 0, 1),
        Place::Qsfp1g(_) => Row(0x86, 1, 0, 2),
        Place::QsfpConnector(_, _) => Row(0x82, 1, 0, 3),
        Place::QsfpLength(_, _) => Row(0x92, 1, 0, 4),
        Place::QsfpTechnology(_, _) => Row(0x93, 1, 0, 5),
    }
}

pub fn request(p: Place) -> Request
    ensures { result ≡ request_at p }
{
    Request::ReadByte(EEPROM, row_at(p).0)
}

// The readings of byte 0, this one among them.
fn readings(p: Place) -> u8
    ensures { result ≡ readings_at p }
{
    let r = row_at(p);
    if r.2 < r.1 {
        return r.1 - r.2;
    }
    0
}

// A module's first byte gets the long probe's attempts.
pub fn tries(port: Port, p: Place) -> u8
    ensures { result ≡ tries_at port p }
{
    if row_at(p).3 == 0 {
        return 11;
    }
    i2c::attempts(port) as u8
}

// The most transfers up to this place's end.
pub fn cap(port: Port, p: Place) -> u32
    ensures { result ≡ cap_at port p }
{
    readings(p) as u32 * 11 + row_at(p).3 as u32 * i2c::attempts(port)
}

// Byte 0 is requested at most five times.
pub fn valid(p: Place) -> bool
    ensures { result ≡ valid_place p }
{
    0 < readings(p)
}

fn found(c: Codes, kind: Kind) -> Then
    ensures { Keeps ((q : Sequence) (port : Port) → rest_then q port result ≡ ret (Ok (recorded 3 c kind))) ((port : Port) (n : ℕ) → Later port n result) }
{
    Next::End(Ok(class::recorded(class::SFP, c, kind)))
}

fn after_identifier(left: u8, v: u8) -> Then
    ensures { Keeps ((q : Sequence) (port : Port) → rest_then q port result ≡ on_at q port (Place.Identifier left) v) ((port : Port) → valid_place (Place.Identifier left) ≡ true → Later port (cap_at port (Place.Identifier left)) result) }
{
    if v == class::SFP {
        return Next::Going(Place::Comp1g);
    }
    if left == 0 {
        return Next::End(Ok(sfp::methods::other(v)));
    }
    Next::Going(Place::Identifier(left - 1))
}

// The kind, or byte 60 for it.
fn kinded(c: Codes, bx: bool) -> Then
    ensures { Keeps ((q : Sequence) (port : Port) → rest_then q port result ≡ kinded q port c bx) ((port : Port) (n : ℕ) → n + attempts port ≤ most port 5 7 → Later port n result) }
{
    match class::coded(c, bx) {
        Some(kind) => found(c, kind),
        None => Next::Going(Place::Active(c)),
    }
}

fn after_cable(c: Codes) -> Then
    ensures { Keeps ((q : Sequence) (port : Port) → rest_then q port result ≡ classify q port 3 c) ((port : Port) → Later port (most port 5 3) result) }
{
    if class::asks_rate(c) {
        return Next::Going(Place::Rate(c));
    }
    kinded(c, false)
}

fn after_rate(c: Codes, v: u8) -> Then
    ensures { Keeps ((q : Sequence) (port : Port) → rest_then q port result ≡ on_at q port (Place.Rate c) v) ((port : Port) → Later port (most port 5 4) result) }
{
    if v == class::RATE {
        return Next::Going(Place::Km(c));
    }
    kinded(c, false)
}

fn qsfp_found(g10: u8, g1: u8, kind: Kind) -> Then
    ensures { Keeps ((q : Sequence) (port : Port) → rest_then q port result ≡ qsfp_found g10 g1 kind) ((port : Port) (n : ℕ) → Later port n result) }
{
    Next::End(Ok(sfp::qsfp::qsfp_recorded(g10, g1, kind)))
}

fn after_qsfp_identifier(v: u8) -> Then
    ensures { Keeps ((q : Sequence) (port : Port) → rest_then q port result ≡ qsfp_identified q port v) ((port : Port) → Later port (most port 1 0) result) }
{
    if v == sfp::qsfp::QSFP {
        return Next::Going(Place::Qsfp10g);
    }
    Next::End(Ok(sfp::methods::other(v)))
}

fn qsfp_codes(g10: u8, g1: u8) -> Then
    ensures { Keeps ((q : Sequence) (port : Port) → rest_then q port result ≡ qsfp_classify q port g10 g1) ((port : Port) → Later port (most port 1 2) result) }
{
    match sfp::qsfp::coded(g10) {
        Some(kind) => qsfp_found(g10, g1, kind),
        None => Next::Going(Place::QsfpConnector(g10, g1)),
    }
}

fn after_connector(g10: u8, g1: u8, v: u8) -> Then
    ensures { Keeps ((q : Sequence) (port : Port) → rest_then q port result ≡ on_at q port (Place.QsfpConnector g10 g1) v) ((port : Port) → Later port (most port 1 3) result) }
{
    if sfp::qsfp::fixed(v) {
        return Next::Going(Place::QsfpLength(g10, g1));
    }
    qsfp_found(g10, g1, Kind::Unknown)
}

fn after_length(g10: u8, g1: u8, v: u8) -> Then
    ensures { Keeps ((q : Sequence) (port : Port) → rest_then q port result ≡ on_at q port (Place.QsfpLength g10 g1) v) ((port : Port) → Later port (most port 1 4) result) }
{
    if sfp::qsfp::measured(v) {
        return Next::Going(Place::QsfpTechnology(g10, g1));
    }
    qsfp_found(g10, g1, Kind::Unknown)
}

fn after_technology(g10: u8, g1: u8, v: u8) -> Then
    ensures { Keeps ((q : Sequence) (port : Port) → rest_then q port result ≡ on_at q port (Place.QsfpTechnology g10 g1) v) ((port : Port) (n : ℕ) → Later port n result) }
{
    qsfp_found(g10, g1, sfp::qsfp::cable_of(v))
}

// A byte was read.
fn on(p: Place, v: u8) -> Then
    ensures { Keeps ((q : Sequence) (port : Port) → rest_then q port result ≡ on_at q port p v) ((port : Port) → valid_place p ≡ true → Later port (cap_at port p) result) }
{
    match p {
        Place::Identifier(left) => after_identifier(left, v),
        Place::Comp1g => Next::Going(Place::Comp10g(v)),
        Place::Comp10g(g1) => Next::Going(Place::Cable(g1, v)),
        Place::Cable(g1, g10) => after_cable(Codes { g1, g10, cable: v }),
        Place::Rate(c) => after_rate(c, v),
        Place::Km(c) => Next::Going(Place::Hm(c, v)),
        Place::Hm(c, km) => kinded(c, class::reach(km, v)),
        Place::Active(c) => found(c, class::cable_of(v)),
        Place::QsfpIdentifier => after_qsfp_identifier(v),
        Place::Qsfp10g => Next::Going(Place::Qsfp1g(v)),
        Place::Qsfp1g(g10) => qsfp_codes(g10, v),
        Place::QsfpConnector(g10, g1) => after_connector(g10, g1, v),
        Place::QsfpLength(g10, g1) => after_length(g10, g1, v),
        Place::QsfpTechnology(g10, g1) => after_technology(g10, g1, v),
    }
}

// Nothing answered; any other failure ends the call.
fn failed(e: Error) -> Then
    ensures { Keeps ((q : Sequence) (port : Port) (p : Place) → rest_then q port result ≡ or_absent (on_at q port p) (Err (failure_of e))) ((port : Port) (n : ℕ) → Later port n result) }
{
    if bus::is_i2c(e) {
        return Next::End(Ok(sfp::methods::absent()));
    }
    Next::End(Err(e))
}

// A request has ended.
pub fn after(p: Place, g: R<Taken>) -> Then
    ensures { Keeps ((q : Sequence) (port : Port) → rest_then q port result ≡ told_at q port p (reply g)) ((port : Port) → valid_place p ≡ true → Later port (cap_at port p) result) }
{
    match g {
        Ok(t) => on(p, t.last),
        Err(e) => failed(e),
    }
}

// Classes of SFP modules by SFF-8472.
#![tactic(auto, using(crate::proofs::Laws::rate_asked, crate::proofs::Laws::coded_kind, crate::proofs::Laws::recorded_class, crate::proofs::Laws::pick_most), unfolding(hardware::specs::Registers::none_of, crate::specs::Classes::has, crate::specs::Bytes::codes_ask_rate, crate::specs::Identify::fibre_of, hardware::specs::Prog::pick, crate::specs::Classes::is_cable, crate::specs::Identify::recorded, crate::specs::Bytes::sfp_bytes, crate::specs::Classes::asks_reach, crate::specs::Classes::bx10g, crate::specs::Coded::coded_by, crate::specs::Classes::class_of, crate::specs::Classes::asks_active, crate::specs::Classes::requests))]

ghost use Rattle.std.specs.Prelude.{◌≡◌, ◌+◌, ◌&&◌, ◌||◌, nat_le, nat_lt};
ghost use Rattle.hardware.specs.Prog.{pick};
ghost use Rattle.hardware.specs.Registers.{none_of};
ghost use Rattle.sfp.specs.declared.Kind.TheVariants.{DaActiveLimiting, Unknown};
ghost use Rattle.sfp.specs.Bytes.{sfp_bytes, codes_of, codes_ask_rate, classed};
ghost use Rattle.sfp.specs.Classes.{has, SX, LX, SR, LR, LIMITING, asks_rate, asks_reach, asks_active, bx10g, kind_of, is_cable, class_of, requests};
ghost use Rattle.sfp.specs.Identify.{fibre_of, recorded};
ghost use Rattle.sfp.specs.Coded.{coded_by};

use crate::{Codes, Identity, Kind};

// The identifier of an SFP.
pub const SFP: u8 = 0x03;

// Byte 3.
pub const SR: u8 = 0x10;

pub const LR: u8 = 0x20;

// Byte 6.
pub const SX: u8 = 0x01;

pub const LX: u8 = 0x02;

pub const BASE_T: u8 = 0x08;

pub const BX10: u8 = 0x40;

// Byte 8.
pub const PASSIVE_DA: u8 = 0x04;

pub const ACTIVE_DA: u8 = 0x08;

// Byte 12: the nominal rate of a 10G-BX module.
pub const RATE: u8 = 0x67;

// Byte 60.
pub const LIMITING: u8 = 0x04;

// The bytes of page A0 that a class goes by, by their places (decimal).
#[derive(Clone, Copy)]
pub struct SfpBytes {
    pub b0: u8,
    pub b3: u8,
    pub b6: u8,
    pub b8: u8,
    pub b12: u8,
    pub b14: u8,
    pub b15: u8,
    pub b60: u8,
}

#[derive(Clone, Copy)]
pub struct Classed {
    pub kind: Kind,
    pub multispeed: bool,
}

pub fn none_of(byte: u8, bits: u8) -> bool
    ensures { result ≡ none_of byte bits }
{
    byte & bits == 0
}

// Whether the byte has one of the bits.
pub fn has(byte: u8, bits: u8) -> bool
    ensures { result ≡ has byte bits }
{
    !none_of(byte, bits)
}

// Whether byte 12 is requested: the first three parts of the 10G-BX test.
pub fn asks_rate(c: Codes) -> bool
    ensures { result ≡ codes_ask_rate c }
{
    if c.g10 == 0 {
        if none_of(c.g1, SX | LX | BASE_T) {
            return none_of(c.cable, PASSIVE_DA | ACTIVE_DA);
        }
    }
    false
}

// The last part: a reach on single-mode fibre of a kilometre, byte 14, or of ten times 100 metres, byte 15.
pub fn reach(km: u8, hm: u8) -> bool
    ensures { result ≡ (nat_lt 0 km || nat_le 10 hm) }
{
    if 0 < km {
        return true;
    }
    10 <= hm
}

// Below the cables: the first that fits. bx: whether the 10G-BX test holds.
pub fn fibre(c: Codes, bx: bool) -> Kind
    ensures { result ≡ fibre_of c bx }
{
    if has(c.g10, SR | LR) {
        return Kind::SrLr;
    }
    if has(c.g1, BASE_T) {
        return Kind::Cu1g;
    }
    if has(c.g1, SX) {
        return Kind::Sx1g;
    }
    if has(c.g1, LX) {
        return Kind::Lx1g;
    }
    if bx {
        return Kind::Bx10g;
    }
    if has(c.g1, BX10) {
        return Kind::Bx1g;
    }
    Kind::Unknown
}

// An active cable, by byte 60.
pub fn cable_of(active: u8) -> Kind
    ensures { result ≡ pick (has active LIMITING) DaActiveLimiting Unknown }
{
    if has(active, LIMITING) {
        return Kind::DaActiveLimiting;
    }
    Kind::Unknown
}

pub fn is_cable(kind: Kind) -> bool
    ensures { result ≡ is_cable kind }
{
    if kind.is(Kind::DaCu) {
        return true;
    }
    kind.is(Kind::DaActiveLimiting)
}

// A 1G code with a 10G code.
pub fn both(g1: u8, one: u8, g10: u8, ten: u8) -> bool
    ensures { result ≡ (has g1 one && has g10 ten) }
{
    if has(g1, one) {
        return has(g10, ten);
    }
    false
}

fn multispeed(c: Codes, kind: Kind) -> bool
    ensures { result ≡ (recorded 0 c kind).multispeed }
{
    if both(c.g1, SX, c.g10, SR) {
        return true;
    }
    if both(c.g1, LX, c.g10, LR) {
        return true;
    }
    is_cable(kind)
}

pub fn recorded(identifier: u8, c: Codes, kind: Kind) -> Identity
    ensures { result ≡ recorded identifier c kind }
{
    Identity {
        kind,
        multispeed: multispeed(c, kind),
        identifier,
        comp10g: c.g10,
        comp1g: c.g1,
        cable: c.cable,
    }
}

fn codes(b: SfpBytes) -> Codes
    ensures { result ≡ codes_of (sfp_bytes b) }
{
    Codes {
        g1: b.b6,
        g10: b.b3,
        cable: b.b8,
    }
}

// Whether bytes 14 and 15 are requested.
fn asks_reach(b: SfpBytes) -> bool
    ensures { result ≡ asks_reach (sfp_bytes b) }
{
    if asks_rate(codes(b)) {
        return b.b12 == RATE;
    }
    false
}

// The 10G-BX test.
fn bx10g(b: SfpBytes) -> bool
    ensures { result ≡ bx10g (sfp_bytes b) }
{
    if asks_reach(b) {
        return reach(b.b14, b.b15);
    }
    false
}

// The kind, where byte 60 is not needed for it.
pub fn coded(c: Codes, bx: bool) -> Option<Kind>
    ensures { result ≡ coded_by c bx }
{
    if has(c.cable, PASSIVE_DA) {
        return Some(Kind::DaCu);
    }
    if has(c.cable, ACTIVE_DA) {
        return None;
    }
    Some(fibre(c, bx))
}

fn kind_of(b: SfpBytes) -> Kind
    ensures { result ≡ kind_of (sfp_bytes b) }
{
    match coded(codes(b), bx10g(b)) {
        Some(kind) => kind,
        None => cable_of(b.b60),
    }
}

// The class of a module with these bytes.
pub fn class(b: SfpBytes) -> Classed
    ensures { classed result ≡ class_of (sfp_bytes b) }
{
    if b.b0 == SFP {
        let m = recorded(b.b0, codes(b), kind_of(b));
        let kind = m.kind;
        return Classed {
            kind,
            multispeed: m.multispeed,
        };
    }
    Classed {
        kind: Kind::Unknown,
        multispeed: false,
    }
}

// The requests for bytes 12, 14 and 15.
fn bx_requests(b: SfpBytes) -> u8
    ensures { result ≡ pick (asks_rate (sfp_bytes b)) 1 0 + pick (asks_reach (sfp_bytes b)) 2 0 }
{
    if asks_rate(codes(b)) {
        if b.b12 == RATE {
            return 3;
        }
        return 1;
    }
    0
}

// The requests for byte 60.
fn active_requests(b: SfpBytes) -> u8
    ensures { result ≡ pick (asks_active (sfp_bytes b)) 1 0 }
{
    if none_of(b.b8, PASSIVE_DA) {
        if has(b.b8, ACTIVE_DA) {
            return 1;
        }
    }
    0
}

// How many bytes the identification of a module with these bytes requests.
pub fn requests_of(b: SfpBytes) -> u8
    ensures { result ≡ requests (sfp_bytes b) }
{
    if b.b0 == SFP {
        return 4 + bx_requests(b) + active_requests(b);
    }
    5
}

// Classes of QSFP modules by SFF-8636.
#![tactic(auto, using(crate::proofs::Laws::qsfp_coded_kind, crate::proofs::Laws::qsfp_recorded_class), unfolding(crate::specs::Qsfp::qsfp_recorded, crate::specs::Coded::qsfp_coded, hardware::specs::Prog::pick, crate::specs::Coded::qsfp_cable, crate::specs::Bytes::qsfp_bytes, crate::specs::Classes::qsfp_class_of))]

ghost use Rattle.std.specs.Prelude.{◌≡◌, ◌==◌, nat_lt};
ghost use Rattle.sfp.specs.declared.Kind.TheVariants.{Unknown};
ghost use Rattle.sfp.specs.Bytes.{qsfp_bytes, classed};
ghost use Rattle.sfp.specs.Classes.{qsfp_kind_of, qsfp_class_of};
ghost use Rattle.sfp.specs.Coded.{qsfp_coded, qsfp_cable};
ghost use Rattle.hardware.specs.Prog.{pick};
ghost use Rattle.sfp.specs.Qsfp.{qsfp_recorded};

use crate::class::Classed;
use crate::{Identity, Kind, class};

// The identifier of a QSFP.
pub const QSFP: u8 = 0x0d;

// The bytes that a class goes by, by their places (hexadecimal).
#[derive(Clone, Copy)]
pub struct QsfpBytes {
    pub b0: u8,
    pub b82: u8,
    pub b83: u8,
    pub b86: u8,
    pub b92: u8,
    pub b93: u8,
}

fn multispeed(g10: u8, g1: u8) -> bool
    ensures { result ≡ (qsfp_recorded g10 g1 Unknown).multispeed }
{
    if class::both(g1, class::SX, g10, class::SR) {
        return true;
    }
    class::both(g1, class::LX, g10, class::LR)
}

pub fn qsfp_recorded(g10: u8, g1: u8, kind: Kind) -> Identity
    ensures { result ≡ qsfp_recorded g10 g1 kind }
{
    Identity {
        kind,
        multispeed: multispeed(g10, g1),
        identifier: QSFP,
        comp10g: g10,
        comp1g: g1,
        cable: 0,
    }
}

// The kind, where byte 83 decides it.
pub fn coded(g10: u8) -> Option<Kind>
    ensures { result ≡ qsfp_coded g10 }
{
    if class::has(g10, 0x08) {
        return Some(Kind::DaCu);
    }
    if class::has(g10, class::SR | class::LR) {
        return Some(Kind::SrLr);
    }
    if class::has(g10, 0x01) {
        return Some(Kind::DaActiveLimiting);
    }
    None
}

// Byte 82: a cable that cannot be taken off.
pub fn fixed(connector: u8) -> bool
    ensures { result ≡ (connector == 0x23) }
{
    connector == 0x23
}

// Byte 92: the cable has a length.
pub fn measured(metres: u8) -> bool
    ensures { result ≡ nat_lt 0 metres }
{
    0 < metres
}

// A cable by byte 93, whose high half is the transmitter's technology.
pub fn cable_of(technology: u8) -> Kind
    ensures { result ≡ qsfp_cable technology }
{
    if technology / 16 == 0 {
        return Kind::DaActiveLimiting;
    }
    Kind::Unknown
}

// The kind where byte 83 does not decide it.
fn cabled(b: QsfpBytes) -> Kind
    ensures { result ≡ pick (b.b82 == 0x23) (pick (nat_lt 0 b.b92) (qsfp_cable b.b93) Unknown) Unknown }
{
    if fixed(b.b82) {
        if measured(b.b92) {
            return cable_of(b.b93);
        }
    }
    Kind::Unknown
}

fn kind_of(b: QsfpBytes) -> Kind
    ensures { result ≡ qsfp_kind_of (qsfp_bytes b) }
{
    match coded(b.b83) {
        Some(kind) => kind,
        None => cabled(b),
    }
}

// The class of a module with these bytes.
pub fn qsfp_class(b: QsfpBytes) -> Classed
    ensures { classed result ≡ qsfp_class_of (qsfp_bytes b) }
{
    if b.b0 == QSFP {
        let m = qsfp_recorded(b.b83, b.b86, kind_of(b));
        let kind = m.kind;
        return Classed {
            kind,
            multispeed: m.multispeed,
        };
    }
    Classed {
        kind: Kind::Unknown,
        multispeed: false,
    }
}

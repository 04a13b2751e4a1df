// SFP+ modules: their classes by SFF-8472, and what the driver records of one.
#![tactic(auto)]

ghost use Rattle.std.specs.Prelude.{◌≡◌};
ghost use Rattle.sfp.specs.Kinds.{kind_number, is_kind};

pub mod class;
pub mod methods;
pub mod qsfp;
pub mod rate;
pub mod sum;

use std::fmt;

// The kinds of `sfp.rs`. DaCu: a passive direct-attach cable of copper. DaActiveLimiting: an active one with a limiting
// amplifier. SrLr: 10GBASE-SR or -LR. Cu1g: 1000BASE-T. Sx1g, Lx1g: 1000BASE-SX, -LX. Bx10g, Bx1g: both directions on one
// fibre. Unknown: another identifier than an SFP's, or no rule fits. NotPresent: nothing answered.
#[derive(Clone, Copy, PartialEq, Eq)]
pub enum Kind {
    DaCu,
    DaActiveLimiting,
    SrLr,
    Cu1g,
    Sx1g,
    Lx1g,
    Bx10g,
    Bx1g,
    Unknown,
    NotPresent,
}

impl Kind {
    // `==`, as the contracts say it.
    #[tactic(auto, unfolding(crate::specs::Kinds::is_kind))]
    pub fn is(self, other: Kind) -> bool
        ensures { result ≡ is_kind self other }
    {
        self == other
    }
}

// The name, padded as the format says.
impl fmt::Display for Kind {
    fn fmt<W: fmt::Write>(&self, f: &mut fmt::Formatter<W>) -> fmt::Result {
        f.pad(match self {
            Kind::DaCu => "DaCu",
            Kind::DaActiveLimiting => "DaActiveLimiting",
            Kind::SrLr => "SrLr",
            Kind::Cu1g => "Cu1g",
            Kind::Sx1g => "Sx1g",
            Kind::Lx1g => "Lx1g",
            Kind::Bx10g => "Bx10g",
            Kind::Bx1g => "Bx1g",
            Kind::Unknown => "Unknown",
            Kind::NotPresent => "NotPresent",
        })
    }
}

// What identifies a module: all that a call on the bus carries of it. multispeed: 10G is tried, and then 1G. comp10g, comp1g
// and cable are bytes 3, 6 and 8 of an SFP; of a QSFP bytes 83 and 86 (hexadecimal) and 0.
#[derive(Clone, Copy)]
pub struct Identity {
    pub kind: Kind,
    pub multispeed: bool,
    pub identifier: u8,
    pub comp10g: u8,
    pub comp1g: u8,
    pub cable: u8,
}

// The record of a module, built round its identity for the caller (`methods::record`).
#[derive(Clone, Copy)]
pub struct Module {
    pub identity: Identity,
}

// The codes of an SFP that its class goes by: bytes 6, 3 and 8.
#[derive(Clone, Copy)]
pub struct Codes {
    pub g1: u8,
    pub g10: u8,
    pub cable: u8,
}

// By the place in the Rust's list, from 0.
pub fn number(kind: Kind) -> u8
    ensures { result ≡ kind_number kind }
{
    match kind {
        Kind::DaCu => 0,
        Kind::DaActiveLimiting => 1,
        Kind::SrLr => 2,
        Kind::Cu1g => 3,
        Kind::Sx1g => 4,
        Kind::Lx1g => 5,
        Kind::Bx10g => 6,
        Kind::Bx1g => 7,
        Kind::Unknown => 8,
        Kind::NotPresent => 9,
    }
}

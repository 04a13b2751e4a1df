// What is printed of a module, and how.
use bench::receiver::{Chosen, Stage};
use hardware::Family;
use sfp::Kind;
use std::fmt;
use std::fmt::{Display, Formatter};
use transfer::attempt::Sequence;

// A value as a record names it.
#[derive(Clone, Copy)]
pub struct Named<T>(pub T);

impl Display for Named<Kind> {
    fn fmt<W: fmt::Write>(&self, f: &mut Formatter<W>) -> fmt::Result {
        f.pad(match self.0 {
            Kind::DaCu => "DaCu",
            Kind::DaActiveLimiting => "DaActiveLimiting",
            Kind::SrLr => "SrLr",
            Kind::Cu1g => "Cu1g",
            Kind::Sx1g => "Sx1g",
            Kind::Lx1g => "Lx1g",
            Kind::Bx10g => "Bx10g",
            Kind::Bx1g => "Bx1g",
            Kind::Unknown => "Unknown",
            Kind::NotPresent => "NotPresent",
        })
    }
}

impl Display for Named<Family> {
    fn fmt<W: fmt::Write>(&self, f: &mut Formatter<W>) -> fmt::Result {
        f.write_str(match self.0 {
            Family::F82599 => "82599",
            Family::X540 => "X540",
            Family::X550 => "X550",
            Family::X552 => "X552",
            Family::X553 => "X553",
        })
    }
}

impl Display for Named<Stage> {
    fn fmt<W: fmt::Write>(&self, f: &mut Formatter<W>) -> fmt::Result {
        match self.0 {
            Stage::Idle => write!(f, "idle"),
            Stage::Address(n) => write!(f, "address:{n}"),
            Stage::Receive(n) => write!(f, "receive:{n}"),
            Stage::AckRead => write!(f, "ackread"),
            Stage::AckWrite => write!(f, "ackwrite"),
            Stage::Send(n) => write!(f, "send:{n}"),
            Stage::Listen => write!(f, "listen"),
        }
    }
}

impl Display for Named<Chosen> {
    fn fmt<W: fmt::Write>(&self, f: &mut Formatter<W>) -> fmt::Result {
        f.write_str(match self.0 {
            Chosen::A0 => "A0",
            Chosen::A2 => "A2",
        })
    }
}

impl Display for Named<Sequence> {
    fn fmt<W: fmt::Write>(&self, f: &mut Formatter<W>) -> fmt::Result {
        f.write_str(match self.0 {
            Sequence::Pulses => "pulses",
            Sequence::Rounds => "rounds",
        })
    }
}

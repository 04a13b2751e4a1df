// The shipped images, each from every stage of the receiver, with the default clearing sequence and with that of the Rust.
use crate::print::Named;
use crate::settings::FAMILIES;
use crate::{runs, start};
use bench::receiver::Stage;
use bench::register::BenchState;
use hardware::{Family, Port};
use image::files;
use image::files::Image;
use onbench::Ending;
use sfp::Identity;
use std::fmt::{Display, Formatter};
use std::rt::Files;
use std::{fmt, io};
use transfer::attempt::Sequence;

const PORT: Port = Port {
    family: Family::F82599,
    device: 0x10fb,
    lan: 0,
};

const IMAGES: [&str; 14] = [
    "dacu.bin",
    "daact.bin",
    "sr.bin",
    "srsx.bin",
    "lr.bin",
    "lrlx.bin",
    "t.bin",
    "sx.bin",
    "lx.bin",
    "bx10g.bin",
    "bx1g.bin",
    "lrm.bin",
    "dalin.bin",
    "sff.bin",
];

const TITLE: &str = "\
Images of modules (made, not dumped) identified on the bench from each stage of
the receiver, Send n with the bit 0 and 1, Listen with SDA noted low and high:
39 states, bits taken a0, page A0, data next. 82599, port 0, PCI device 10fb.
  m         multispeed; 0 3 6 8: bytes of A0 as recorded; T: transfers from Idle
  OK        states with the same kind and multispeed, no byte of the module
            changed, and at the end the module Idle and both lines released
  +1        those of them with one transfer more, as the module pulled SDA
  old       states that are OK with sequence=pulses, the original's clearing
  AckWrite  what this state gave with that, and after how many transfers
image     kind             m 0  3  6  8  supported by    T OK +1 old AckWrite";

// A record, and after how many transfers.
#[derive(Clone, Copy)]
struct Seen {
    identity: Identity,
    transfers: u32,
}

impl Seen {
    // The record, if the call ended with one.
    fn of(ending: Ending) -> Option<Seen> {
        match ending {
            Ending::Ended(Ok(identity), meter) => Some(Seen {
                identity,
                transfers: meter.transfers,
            }),
            _ => None,
        }
    }
}

// right: the states with the record of Idle. more: those among them with one transfer more.
#[derive(Clone, Copy, Default)]
struct Tally {
    right: u32,
    more: u32,
}

// What the table shows of a state; where there is no record, that of an empty cage after no transfer.
fn shown(q: Sequence, image: Image, n: u8) -> Seen {
    let run = runs::identify(PORT, start::state(PORT.family, n, image), q);
    Seen::of(run.ending).unwrap_or(Seen {
        identity: sfp::methods::absent(),
        transfers: 0,
    })
}

fn same_class(m: Identity, n: Identity) -> bool {
    m.kind == n.kind && m.multispeed == n.multispeed
}

// No byte changed, and at the end Idle with both lines released.
fn left_alone(before: BenchState, after: BenchState) -> bool {
    bench::same(before.bench, after.bench)
        && matches!(after.bench.receiver.stage, Stage::Idle)
        && bench::register::released(PORT.family, after)
}

// There are 39 states, so no count wraps.
fn tallied(q: Sequence, idle: Seen, image: Image) -> Tally {
    let mut tally = Tally::default();
    for n in 0..start::STATES {
        let before = start::state(PORT.family, n, image);
        let run = runs::identify(PORT, before, q);
        let Some(seen) = Seen::of(run.ending) else {
            continue;
        };
        if !same_class(idle.identity, seen.identity) || !left_alone(before, run.state) {
            continue;
        }
        tally.right = tally.right.wrapping_add(1);
        if bench::pulls_low(before.bench) && seen.transfers == idle.transfers.wrapping_add(1) {
            tally.more = tally.more.wrapping_add(1);
        }
    }
    tally
}

// The families that take the module, by name where it is a part of them.
#[derive(Clone, Copy)]
struct Supported(Identity);

impl Supported {
    fn by(&self, family: Family) -> bool {
        sfp::methods::supported(sfp::methods::record(self.0), family)
    }
}

impl Display for Supported {
    fn fmt<W: fmt::Write>(&self, f: &mut Formatter<W>) -> fmt::Result {
        match FAMILIES
            .iter()
            .filter(|(_, family)| self.by(*family))
            .count()
        {
            0 => write!(f, "{:<16}", "none"),
            5 => write!(f, "{:<16}", "all"),
            _ => {
                for (name, family) in FAMILIES {
                    if self.by(family) {
                        write!(f, "{name} ")?;
                    }
                }
                Ok(())
            }
        }
    }
}

fn row(rt: &impl Print, name: &str, image: Image) -> io::Result<()> {
    let standard = i2c::standard();
    let idle = shown(standard, image, start::IDLE);
    let m = idle.identity;
    print!(rt;
        "{name:<10}{:<17}{} ",
        Named(m.kind),
        if m.multispeed { "y" } else { "n" }
    )?;
    print!(rt;
        "{:02x} {:02x} {:02x} {:02x} ",
        m.identifier, m.comp10g, m.comp1g, m.cable
    )?;
    print!(rt; "{}", Supported(m))?;
    let tally = tallied(standard, idle, image);
    let old = tallied(Sequence::Pulses, idle, image);
    print!(rt;
        "{} {} {} {}  ",
        idle.transfers, tally.right, tally.more, old.right
    )?;
    let ack_write = shown(Sequence::Pulses, image, start::ACK_WRITE);
    println!(rt;
        "{} {}",
        Named(ack_write.identity.kind),
        ack_write.transfers
    )
}

// The image of a file; where it is none, standard error says so.
fn read<R: Files + Eprint>(rt: &R, name: &str) -> io::Result<Option<Image>> {
    match files::read(rt, name.as_bytes()) {
        Ok(image) => Ok(Some(image)),
        Err(unfit) => {
            eprintln!(rt; "shipped image '{name}': {unfit}")?;
            Ok(None)
        }
    }
}

// Nothing is printed where one cannot be read.
pub(crate) fn all<R: Files + Print + Eprint>(rt: &R) -> io::Result<()> {
    for name in IMAGES {
        if read(rt, name)?.is_none() {
            return Ok(());
        }
    }
    println!(rt; "{TITLE}")?;
    for name in IMAGES {
        if let Some(image) = read(rt, name)? {
            row(rt, name, image)?;
        }
    }
    Ok(())
}

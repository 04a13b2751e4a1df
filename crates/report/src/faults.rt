// Bad input: one line on standard error, with the papers' number in front where they have one.
use crate::settings::{Fault, Wrong};
use hardware::Refusal;
use image::{faults, words};
use std::fmt::{Display, Formatter};
use std::rt::Env;
use std::{fmt, io};

#[derive(Clone, Copy)]
struct Reason(Refusal);

impl Display for Reason {
    fn fmt<W: fmt::Write>(&self, f: &mut Formatter<W>) -> fmt::Result {
        f.write_str(match self.0 {
            Refusal::Family => "the family is 82599, X540, X550, X552 or X553",
            Refusal::Lan => "the port number is 0 or 1",
            _ => "the call is refused",
        })
    }
}

impl Display for Fault {
    fn fmt<W: fmt::Write>(&self, f: &mut Formatter<W>) -> fmt::Result {
        match self {
            Fault::Long => f.write_str(words::TOO_LONG),
            Fault::Second => {
                f.write_str("an image is named already, and a setting is NAME=VALUE")
            }
            Fault::Name => {
                f.write_str("the names are family port device stage taken page next sda a0 a2 ")?;
                f.write_str("control esdp sequence; put ./ before an image whose path has =")
            }
            Fault::Twice => f.write_str("the name was given before"),
            Fault::Refused(q) => write!(f, "{}", Reason(*q)),
            Fault::Hex(most) => write!(f, "the value is 1 to {most} hexadecimal digits"),
            Fault::Stage => f.write_str(
                "the stages are idle address:N receive:N ackread ackwrite send:N listen",
            ),
            Fault::Count(most) => write!(f, "the stage's number is 0 to {most}"),
            Fault::Page => f.write_str("the page is A0 or A2"),
            Fault::Next => f.write_str("the next byte is offset or data"),
            Fault::Sda => f.write_str("the SDA noted is low or high"),
            Fault::Sequence => f.write_str("the clearing sequence is rounds or pulses"),
            Fault::Control => {
                f.write_str("on the X552 and X553 the start has BB_EN (100) or both enables off ")?;
                f.write_str("(800 and 2000)")
            }
        }
    }
}

pub(crate) fn word(rt: &(impl Env + Eprint), wrong: Wrong) -> io::Result<()> {
    let mut buffer = [0; words::LONGEST];
    let text = words::read(rt, wrong.place, &mut buffer).unwrap_or(b"");
    if let Some(number) = wrong.fault.question() {
        eprint!(rt; "{number}: ")?;
    }
    faults::word(rt, wrong.place, text, wrong.fault)
}

pub(crate) fn port(rt: &impl Eprint, q: Refusal) -> io::Result<()> {
    eprintln!(rt; "{}: {}", hardware::refusal_number(q), Reason(q))
}
